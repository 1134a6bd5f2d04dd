// Tests of how long a connection over TCP waits, and of where a port listens.
use crate::ports::{Beside, Numbered};
use mm_base::{EndError, Link, Port, TcpLimits, TcpLink, TcpPort};
use std::cell::Cell;
use std::io::{self, Write};
use std::net::{Ipv4Addr, Net, SocketAddr, TcpStream};
use std::time::{Clock, Duration, Instant};

// The limits of these tests, in milliseconds.
const SHORT: u64 = 300;

// The least time in milliseconds after which a limit may end a call. The system counts the limits of a socket in ticks,
// and on a busy machine several ticks may come at once: so a limit may come sooner than it says.
const LEAST: u64 = 150;

// The time in seconds within which a limit must have ended a call. The limits of the programs are longer.
const LONG: u64 = 20;

// Returns limits of 300 ms each.
fn short_limits() -> TcpLimits {
    TcpLimits {
        giving: Duration::from_millis(SHORT),
        reading: Some(Duration::from_millis(SHORT)),
        leaving: Duration::from_millis(SHORT),
    }
}

// Returns whether about a limit of 300 ms has passed since `begun`, and not so much as a limit of the programs.
fn is_a_limit_ago(rt: &HostRuntime, begun: &Instant) -> io::Result<bool> {
    let passed = begun.elapsed(rt)?;
    Ok(Duration::from_millis(LEAST) <= passed && passed < Duration::from_secs(LONG))
}

// Makes a port listen at a number that was free, and returns the number.
fn listen<P: Port + Numbered>(port: &mut P) -> Option<u16> {
    port.listen(0).ok()?;
    port.number_of()
}

// Returns a client that connects to an address and number.
fn client_at(rt: &HostRuntime, address: Ipv4Addr, number: u16) -> io::Result<TcpStream> {
    TcpStream::connect(rt, SocketAddr::from((address, number)))
}

// Returns a client that has connected, and the link by which it came in.
fn connect<P: Port + Numbered>(rt: &HostRuntime, port: &mut P) -> Option<(TcpStream, P::Conn)> {
    let number = listen(port)?;
    let client = client_at(rt, Ipv4Addr::LOCALHOST, number).ok()?;
    let link = port.accept().ok()??;
    Some((client, link))
}

// Writes on and on, and returns the error that ends it.
fn give_on<L: Link>(link: &mut L) -> Option<EndError> {
    for _ in 0..1_000_000 {
        if let Err(error) = link.write(&[0u8; 4_096]) {
            return Some(error);
        }
    }
    None
}

// Returns whether a read brings the bytes `said` into a buffer of `room` bytes.
fn reads<L: Link>(link: &mut L, room: usize, said: &[u8]) -> bool {
    let mut buf = [0u8; 8];
    let Some(front) = buf.get_mut(..room) else {
        return false;
    };
    link.read(front) == Ok(said.len()) && buf.starts_with(said)
}

// A read returns all that came, as far as there is room for it.
fn hands_on<P: Port + Numbered + Drop>(rt: &HostRuntime, port: P) -> Option<bool> {
    let mut port = port;
    let (mut client, mut link) = connect(rt, &mut port)?;
    client.write_all(b"come").ok()?;
    let is_all = reads(&mut link, 8, b"come");
    client.write_all(b"more").ok()?;
    Some(is_all && reads(&mut link, 3, b"mor"))
}

#[test]
fn a_read_hands_on_what_came(rt: HostRuntime) {
    let beside = Beside::new(&rt, short_limits()).expect(&rt, "a pipe");
    assert!(rt; hands_on(&rt, TcpPort::with_limits(rt, short_limits())) == Some(true));
    assert!(rt; hands_on(&rt, beside.nothing()) == Some(true));
    assert!(rt; hands_on(&rt, beside.an_open_pipe()) == Some(true));
}

// A client that reads nothing is cut off at the limit, however much the system's buffers take.
fn cuts_giving<P: Port + Numbered + Drop>(rt: &HostRuntime, port: P) -> Option<bool> {
    let mut port = port;
    let (_client, mut link) = connect(rt, &mut port)?;
    let begun = Instant::now(rt).ok()?;
    let is_cut = give_on(&mut link) == Some(EndError::Failed);
    Some(is_cut && is_a_limit_ago(rt, &begun).ok()?)
}

#[test]
fn a_client_that_takes_nothing_is_cut(rt: HostRuntime) {
    let beside = Beside::new(&rt, short_limits()).expect(&rt, "a pipe");
    assert!(rt; cuts_giving(&rt, TcpPort::with_limits(rt, short_limits())) == Some(true));
    assert!(rt; cuts_giving(&rt, beside.nothing()) == Some(true));
    assert!(rt; cuts_giving(&rt, beside.an_open_pipe()) == Some(true));
}

// A peer that sends nothing is a fault at the limit.
fn cuts_silence<P: Port + Numbered + Drop>(rt: &HostRuntime, port: P) -> Option<bool> {
    let mut port = port;
    let (_client, mut link) = connect(rt, &mut port)?;
    let begun = Instant::now(rt).ok()?;
    let is_cut = link.read(&mut [0u8; 1]) == Err(EndError::Failed);
    Some(is_cut && is_a_limit_ago(rt, &begun).ok()?)
}

#[test]
fn a_peer_that_says_nothing_is_a_fault(rt: HostRuntime) {
    let beside = Beside::new(&rt, short_limits()).expect(&rt, "a pipe");
    assert!(rt; cuts_silence(&rt, TcpPort::with_limits(rt, short_limits())) == Some(true));
    assert!(rt; cuts_silence(&rt, beside.nothing()) == Some(true));
    assert!(rt; cuts_silence(&rt, beside.an_open_pipe()) == Some(true));
}

// Where the output is closed, a client that sends more and then stays is heard for the time of the limit.
fn leaves_at_the_limit<P: Port + Numbered + Drop>(rt: &HostRuntime, port: P) -> Option<bool> {
    let mut port = port;
    let (mut client, mut link) = connect(rt, &mut port)?;
    client.write_all(b"more").ok()?;
    let begun = Instant::now(rt).ok()?;
    link.close_output();
    let is_left = is_a_limit_ago(rt, &begun).ok()?;
    Some(is_left && link.read(&mut [0u8; 1]) == Err(EndError::Failed))
}

#[test]
fn a_client_that_stays_is_left_at_the_limit(rt: HostRuntime) {
    let beside = Beside::new(&rt, short_limits()).expect(&rt, "a pipe");
    assert!(rt; leaves_at_the_limit(&rt, TcpPort::with_limits(rt, short_limits())) == Some(true));
    assert!(rt; leaves_at_the_limit(&rt, beside.nothing()) == Some(true));
    assert!(rt; leaves_at_the_limit(&rt, beside.an_open_pipe()) == Some(true));
}

// A clock that is 120 ms later at each look.
#[derive(Drop)]
struct Hasty {
    looks: Cell<u32>,
}

impl Clock for Hasty {
    fn monotonic(&self) -> io::Result<Duration> {
        self.looks.set(self.looks.get().saturating_add(1));
        Ok(Duration::from_millis(120).saturating_mul(self.looks.get()))
    }

    fn since_1970(&self) -> io::Result<Duration> {
        self.monotonic()
    }
}

// Returns a client, and the link by which it came in, which has a hasty clock.
fn hasty_link(rt: &HostRuntime) -> io::Result<(TcpStream, TcpLink<Hasty>)> {
    let listener = rt.bind(SocketAddr::from((Ipv4Addr::LOCALHOST, 0)))?;
    let number = listener.local_addr()?.port();
    let client = client_at(rt, Ipv4Addr::LOCALHOST, number)?;
    let (stream, _) = listener.accept()?;
    let clock = Hasty {
        looks: Cell::new(0),
    };
    Ok((client, TcpLink::new(clock, stream, short_limits())?))
}

// A client that sends more and more is left at the limit too. No byte starts the limit again.
#[test]
fn a_client_that_goes_on_is_left_at_the_limit(rt: HostRuntime) {
    let (client, link) = hasty_link(&rt).expect(&rt, "a link");
    let (mut client, mut link) = (client, link);
    client.write_all(&[b'm'; 65_536]).expect(&rt, "a client");
    link.close_output();
    assert!(rt; link.read(&mut [0u8; 1]) == Ok(1));
}

// Finishing a connection whose output wasn't closed, and to which this was given, hears the client out.
fn hears_out<P: Port + Numbered + Drop>(rt: &HostRuntime, port: P, piece: &[u8]) -> Option<bool> {
    let mut port = port;
    let (client, link) = connect(rt, &mut port)?;
    let mut link = link;
    if !piece.is_empty() {
        link.write(piece).ok()?;
    }
    let begun = Instant::now(rt).ok()?;
    let is_finished = port.finish(link).is_ok();
    let has_passed = is_a_limit_ago(rt, &begun).ok()?;
    drop(client);
    Some(is_finished && has_passed)
}

#[test]
fn finishing_hears_a_client_out(rt: HostRuntime) {
    let beside = Beside::new(&rt, short_limits()).expect(&rt, "a pipe");
    assert!(rt; hears_out(&rt, TcpPort::with_limits(rt, short_limits()), b"") == Some(true));
    assert!(rt; hears_out(&rt, beside.nothing(), b"") == Some(true));
    assert!(rt; hears_out(&rt, beside.an_open_pipe(), b"x") == Some(true));
}

// A port listens at this machine's own address, and at no other.
fn is_alone<P: Port + Numbered + Drop>(rt: &HostRuntime, port: P) -> Option<bool> {
    let mut port = port;
    let number = listen(&mut port)?;
    let here = client_at(rt, Ipv4Addr::LOCALHOST, number);
    let there = client_at(rt, Ipv4Addr::new(127, 0, 0, 2), number);
    Some(here.is_ok() && there.is_err())
}

#[test]
fn a_port_is_open_to_this_machine_alone(rt: HostRuntime) {
    let beside = Beside::new(&rt, short_limits()).expect(&rt, "a pipe");
    assert!(rt; is_alone(&rt, TcpPort::with_limits(rt, short_limits())) == Some(true));
    assert!(rt; is_alone(&rt, beside.nothing()) == Some(true));
    assert!(rt; is_alone(&rt, beside.an_open_pipe()) == Some(true));
}

// Returns limits of which one can't be set.
fn wrong_limits() -> TcpLimits {
    let mut limits = short_limits();
    limits.giving = Duration::from_millis(0);
    limits
}

// A connection whose limits can't be set is a fault, after which the port listens no more.
fn closes_at_a_fault<P: Port + Numbered + Drop>(rt: &HostRuntime, port: P) -> Option<bool> {
    let mut port = port;
    let number = listen(&mut port)?;
    let _client = client_at(rt, Ipv4Addr::LOCALHOST, number).ok()?;
    let is_fault = matches!(port.accept(), Err(EndError::Failed));
    let later = client_at(rt, Ipv4Addr::LOCALHOST, number);
    Some(is_fault && port.number_of().is_none() && later.is_err())
}

#[test]
fn a_port_that_could_not_accept_listens_no_more(rt: HostRuntime) {
    let beside = Beside::new(&rt, wrong_limits()).expect(&rt, "a pipe");
    assert!(rt; closes_at_a_fault(&rt, TcpPort::with_limits(rt, wrong_limits())) == Some(true));
    assert!(rt; closes_at_a_fault(&rt, beside.nothing()) == Some(true));
    assert!(rt; closes_at_a_fault(&rt, beside.an_open_pipe()) == Some(true));
}
