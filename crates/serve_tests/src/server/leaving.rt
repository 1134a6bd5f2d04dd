// Clients over TCP: one that goes on sending after its connection has ended, and one that ends its requests before it
// reads.
use super::{CHUNKS, CURL, CURLED, end_of};
use mm_base::{Link, NoPace, Port, TcpLimits, TcpLink, TcpPort};
use replay_server::ConnEnd;
use std::alloc::Global;
use std::io::{self, Read, Write};
use std::net::{Ipv4Addr, Shutdown, SocketAddr, TcpStream};
use std::sync::Wait;
use std::thread::{self, Threads, join};
use std::time::{Clock, Duration, Instant};

// For how many milliseconds a client is heard out.
const LIMIT: u64 = 300;

// For how many milliseconds it goes on sending, at most, and how long it rests between two bytes.
const TALK: u64 = 10_000;

const REST: u64 = 20;

fn limits() -> TcpLimits {
    let mut limits = TcpLimits::accepted();
    limits.leaving = Duration::from_millis(LIMIT);
    limits
}

// A client, the link on which it comes in, and its port.
#[derive(Drop)]
struct Connected {
    port: TcpPort<HostRuntime>,
    client: TcpStream,
    link: TcpLink<HostRuntime>,
}

fn connect(rt: &HostRuntime) -> Option<Connected> {
    let mut port = TcpPort::with_limits(*rt, limits());
    port.listen(0).ok()?;
    let address = SocketAddr::from((Ipv4Addr::LOCALHOST, port.number()?));
    let client = TcpStream::connect(rt, address).ok()?;
    let link = port.accept().ok()??;
    Some(Connected { port, client, link })
}

// Sends a byte again and again, until the connection is gone.
fn trickle<K: Clock>(clock: &K, client: TcpStream) {
    let mut client = client;
    for _ in 0..TALK / REST {
        if client.write_all(b"x").is_err() {
            return;
        }
        thread::sleep(clock, Duration::from_millis(REST));
    }
}

// How long it takes to leave a client.
fn leave<K: Clock, P: Port>(clock: &K, port: &mut P, link: P::Conn) -> io::Result<Duration> {
    let mut link = link;
    let begun = Instant::now(clock)?;
    link.close_output();
    let _ = port.finish(link);
    begun.elapsed(clock)
}

// Whether a client that trickles is left at the limit, and not much later.
fn is_left<T: Threads>(threads: &T, rt: &HostRuntime, both: Connected) -> io::Result<bool> {
    let Connected { port, client, link } = both;
    let mut port = port;
    let (_, took) = join(
        threads,
        move || trickle(rt, client),
        move || leave(rt, &mut port, link),
    );
    let took = took?;
    Ok(Duration::from_millis(LIMIT) <= took && took < Duration::from_millis(TALK / 2))
}

#[test]
fn a_client_that_trickles_is_left(rt: HostRuntime) {
    let both = connect(&rt).expect(&rt, "a link");
    assert!(rt; is_left(&rt, &rt, both).expect(&rt, "a clock"));
}

// Sends a request, and that no more will come.
fn ask(client: &TcpStream) -> io::Result<()> {
    let mut client = client;
    client.write_all(CURL.as_bytes())?;
    client.shutdown(Shutdown::Write)
}

// Whether a client that has ended its requests reads its answer, and then the end.
fn is_answered<R: Wait>(wait: &R, alloc: Global, both: Connected) -> io::Result<bool> {
    let Connected {
        mut port,
        client,
        mut link,
    } = both;
    ask(&client)?;
    let is_closed = end_of(wait, alloc, &CURLED, &mut link, 1, &NoPace) == ConnEnd::Closed;
    link.close_output();
    let is_over = link.read(&mut [0u8; 1]) == Ok(0) && port.finish(link).is_ok();
    let text = io::read_to_string(alloc, client)?;
    Ok(is_closed && is_over && text.as_str() == CHUNKS)
}

#[test]
fn a_client_that_ends_its_requests_is_answered(rt: HostRuntime) {
    let both = connect(&rt).expect(&rt, "a link");
    assert!(rt; is_answered(&rt, rt.alloc(), both).expect(&rt, "a link"));
}
