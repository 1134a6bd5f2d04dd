// The machine's network, of which no clause tells what it gives.

use live_relay::{Pulse, Side, UdpWire, Wire, drops_at, is_loss};
use mm_base::EndError;
use std::io::{self, ErrorKind};
use std::net::{Ipv4Addr, SocketAddr, UdpSocket};
use std::thread;
use std::time::Duration;

// A wire of the machine.
type RealWire<'a> = UdpWire<'a, HostRuntime>;

// How often a test asks a real wire before it gives up.
const ASKS: u32 = 20_000;

// How long it rests before it asks again, in microseconds.
const REST: u64 = 200;

// Asks until a datagram comes: whether it comes from this side, and has these bytes.
pub(super) fn receives(
    rt: &HostRuntime,
    wire: &mut RealWire<'_>,
    side: Side,
    bytes: &[u8],
) -> Result<bool, EndError> {
    let mut buf = [0u8; 8];
    for _ in 0..ASKS {
        if let Some((from, count)) = wire.receive(&mut buf)? {
            return Ok(from == side && buf.get(..count) == Some(bytes));
        }
        thread::sleep(rt, Duration::from_micros(REST));
    }
    Ok(false)
}

// Whether no datagram comes, as often as it asks.
pub(super) fn is_silent(wire: &mut RealWire<'_>, asks: u32) -> bool {
    let mut buf = [0u8; 8];
    for _ in 0..asks {
        if !matches!(wire.receive(&mut buf), Ok(None)) {
            return false;
        }
    }
    true
}

// Sends to a side, without what the contract says of it.
fn send(wire: &mut RealWire<'_>, side: Side, bytes: &[u8]) -> Result<(), EndError> {
    wire.send(side, bytes)
}

// The address of a wire that is open.
fn address_of(wire: &RealWire<'_>) -> Option<SocketAddr> {
    Some(SocketAddr::from((Ipv4Addr::LOCALHOST, wire.number()?)))
}

// A socket of this machine, at a port that is free.
fn socket_of(rt: &HostRuntime) -> io::Result<UdpSocket> {
    let socket = UdpSocket::bind(rt, SocketAddr::from((Ipv4Addr::LOCALHOST, 0)))?;
    socket.set_nonblocking(true)?;
    Ok(socket)
}

// Sends from a socket to a wire.
pub(super) fn send_from(socket: &UdpSocket, bytes: &[u8], wire: &RealWire<'_>) -> Option<()> {
    socket.send_to(bytes, address_of(wire)?).ok()?;
    Some(())
}

// Asks until a datagram comes: whether it has these bytes.
fn hears(rt: &HostRuntime, socket: &UdpSocket, bytes: &[u8]) -> io::Result<bool> {
    let mut buf = [0u8; 8];
    for _ in 0..ASKS {
        match socket.recv_from(&mut buf) {
            Ok((count, _)) => return Ok(buf.get(..count) == Some(bytes)),
            Err(error) if error.kind() == ErrorKind::WouldBlock => {
                thread::sleep(rt, Duration::from_micros(REST));
            }
            Err(error) => return Err(error),
        }
    }
    Ok(false)
}

// The port of a socket.
fn port_of(socket: &UdpSocket) -> Option<u16> {
    Some(socket.local_addr().ok()?.port())
}

// A wire to a server at this port, itself at a port that is free.
pub(super) fn wire_to<'a>(rt: &HostRuntime, pulse: &'a Pulse, port: u16) -> Option<RealWire<'a>> {
    let mut wire = UdpWire::new(rt.alloc(), *rt, pulse);
    wire.open(0, port).ok()?;
    Some(wire)
}

// A server's socket, a wire to it, and two clients' sockets.
#[derive(Drop)]
pub(super) struct Ends<'a> {
    pub server: UdpSocket,
    pub first: UdpSocket,
    pub second: UdpSocket,
    pub wire: RealWire<'a>,
}

pub(super) fn ends_by<'a>(rt: &HostRuntime, pulse: &'a Pulse) -> Option<Ends<'a>> {
    let server = socket_of(rt).ok()?;
    let wire = wire_to(rt, pulse, port_of(&server)?)?;
    Some(Ends {
        server,
        first: socket_of(rt).ok()?,
        second: socket_of(rt).ok()?,
        wire,
    })
}

// Sends from a socket to a wire: whether it comes from this side.
fn comes_from(
    rt: &HostRuntime,
    wire: &mut RealWire<'_>,
    side: Side,
    socket: &UdpSocket,
    bytes: &[u8],
) -> Option<bool> {
    send_from(socket, bytes, wire)?;
    receives(rt, wire, side, bytes).ok()
}

// Sends to a side of a wire: whether it comes to this socket.
fn comes_to(
    rt: &HostRuntime,
    wire: &mut RealWire<'_>,
    side: Side,
    socket: &UdpSocket,
    bytes: &[u8],
) -> Option<bool> {
    send(wire, side, bytes).ok()?;
    hears(rt, socket, bytes).ok()
}

// Whether datagrams pass both ways.
fn gives_and_takes(rt: &HostRuntime) -> Option<bool> {
    let pulse = Pulse::new();
    let Ends {
        server,
        first,
        mut wire,
        ..
    } = ends_by(rt, &pulse)?;
    Some(
        comes_from(rt, &mut wire, Side::Client, &first, b"abc")?
            && comes_to(rt, &mut wire, Side::Server, &server, b"de")?
            && comes_from(rt, &mut wire, Side::Server, &server, b"fghi")?
            && comes_to(rt, &mut wire, Side::Client, &first, b"j")?,
    )
}

#[test]
fn a_wire_over_udp_gives_and_takes(rt: HostRuntime) {
    assert!(rt; gives_and_takes(&rt) == Some(true));
}

// Whether nothing has come to a socket.
fn is_unused(socket: &UdpSocket) -> bool {
    let mut buf = [0u8; 8];
    socket.recv_from(&mut buf).is_err()
}

// Whether what both clients send comes up, and what is sent to the client comes to the one that was heard last.
fn knows_latest(rt: &HostRuntime) -> Option<bool> {
    let pulse = Pulse::new();
    let Ends {
        server,
        first,
        second,
        mut wire,
    } = ends_by(rt, &pulse)?;
    Some(
        comes_from(rt, &mut wire, Side::Client, &first, b"one")?
            && comes_from(rt, &mut wire, Side::Client, &second, b"two")?
            && comes_from(rt, &mut wire, Side::Server, &server, b"three")?
            && comes_to(rt, &mut wire, Side::Client, &second, b"back")?
            && is_unused(&first),
    )
}

#[test]
fn what_is_sent_to_the_client_comes_to_the_one_that_was_heard_last(rt: HostRuntime) {
    assert!(rt; knows_latest(&rt) == Some(true));
}

// Whether what the server sends before any client is received, what is sent to a client then is lost, and what a client
// sends later is received.
fn loses_early(rt: &HostRuntime) -> Option<bool> {
    let pulse = Pulse::new();
    let Ends {
        server,
        first,
        mut wire,
        ..
    } = ends_by(rt, &pulse)?;
    Some(
        comes_from(rt, &mut wire, Side::Server, &server, b"early")?
            && send(&mut wire, Side::Client, b"c") == Ok(())
            && wire.lost() == 1
            && comes_from(rt, &mut wire, Side::Client, &first, b"hello")?
            && comes_to(rt, &mut wire, Side::Client, &first, b"now")?
            && wire.lost() == 1,
    )
}

#[test]
fn what_is_sent_before_any_client_is_lost(rt: HostRuntime) {
    assert!(rt; loses_early(&rt) == Some(true));
}

// Whether every call of a wire fails that isn't open.
fn is_closed(wire: &mut RealWire<'_>) -> bool {
    let mut buf = [0u8; 8];
    wire.number().is_none()
        && wire.receive(&mut buf) == Err(EndError::Failed)
        && send(wire, Side::Server, b"x") == Err(EndError::Failed)
}

// The number of Linux's error that an address is in use.
const IN_USE: i32 = 98;

// Whether a wire can't have the port of a socket, and says why.
fn is_refused(rt: &HostRuntime, wire: &mut RealWire<'_>) -> Option<bool> {
    let taken = socket_of(rt).ok()?;
    let error = wire.open(port_of(&taken)?, 9);
    Some(error == Err(EndError::Failed) && wire.last_error() == Some(IN_USE))
}

#[test]
fn a_wire_that_is_not_open_fails(rt: HostRuntime) {
    let pulse = Pulse::new();
    let mut wire = UdpWire::new(rt.alloc(), rt, &pulse);
    assert!(rt; wire.last_error().is_none());
    assert!(rt; is_closed(&mut wire));
    assert!(rt; is_refused(&rt, &mut wire) == Some(true));
}

// What the system prints of its UDP sockets, without some columns in the middle: the one at port 40,001 of 127.0.0.1
// has dropped 2,226 datagrams, and one of another address before it 9.
const SOCKETS: &str =
    " sl local_address drops\n 119: 0100007F:9C42 00000000:0000 07 7\n 117: 0200007F:9C41 00000000:0000 07 9\n 118: 0100007F:9C41 00000000:0000 07 2226\n";

#[test]
fn the_drops_are_those_of_the_port(rt: HostRuntime) {
    assert!(rt; drops_at(SOCKETS, 40_001) == Some(2_226));
    assert!(rt; drops_at(SOCKETS, 40_002) == Some(7));
    assert!(rt; drops_at(SOCKETS, 0).is_none());
    assert!(rt; drops_at("", 40_001).is_none());
}

// A port at which nobody listens.
fn free_port(rt: &HostRuntime) -> Option<u16> {
    port_of(&socket_of(rt).ok()?)
}

// Whether `times` sends to nobody are taken, each before a receive to which nothing comes.
fn is_lost(rt: &HostRuntime, times: u32) -> Option<bool> {
    let pulse = Pulse::new();
    let mut wire = wire_to(rt, &pulse, free_port(rt)?)?;
    for _ in 0..times {
        if send(&mut wire, Side::Server, b"x").is_err() || !is_silent(&mut wire, 1) {
            return Some(false);
        }
    }
    Some(true)
}

#[test]
fn a_datagram_to_nobody_is_lost(rt: HostRuntime) {
    assert!(rt; is_lost(&rt, 3) == Some(true));
}

// The numbers of Linux's errors by which the network loses a datagram: not permitted, no way, no buffer, nobody there.
const LOSSES: [i32; 5] = [1, 101, 105, 111, 113];

// Those of others: interrupted, a bad descriptor, try again, no memory, a bad argument, too long a message.
const FAULTS: [i32; 6] = [4, 9, 11, 12, 22, 90];

#[test]
fn what_the_network_loses_is_no_fault(rt: HostRuntime) {
    assert!(rt;
        LOSSES
            .iter()
            .all(|code| is_loss(&io::Error::from_raw_os_error(*code)))
    );
    assert!(rt;
        !FAULTS
            .iter()
            .any(|code| is_loss(&io::Error::from_raw_os_error(*code)))
    );
}

// Whether a wire that is opened at a port has that port.
fn has_port(rt: &HostRuntime) -> Option<bool> {
    let port = free_port(rt)?;
    let pulse = Pulse::new();
    let mut wire = UdpWire::new(rt.alloc(), *rt, &pulse);
    Some(wire.open(port, 9).is_ok() && wire.number() == Some(port))
}

#[test]
fn a_wire_has_the_port_that_it_was_opened_at(rt: HostRuntime) {
    assert!(rt; has_port(&rt) == Some(true));
}
