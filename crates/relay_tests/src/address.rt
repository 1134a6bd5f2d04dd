// At which address of this machine a wire over UDP is open.
use live_relay::{Pulse, UdpWire, Wire};
use std::io;
use std::net::{Ipv4Addr, SocketAddr, UdpSocket};

// Whether the second of two datagrams to a port is refused, since nobody is there for the first.
fn is_refused(rt: &HostRuntime, address: Ipv4Addr, number: u16) -> io::Result<bool> {
    let socket = UdpSocket::bind(rt, SocketAddr::from((Ipv4Addr::LOCALHOST, 0)))?;
    socket.connect(SocketAddr::from((address, number)))?;
    socket.send(b"first")?;
    Ok(socket.send(b"second").is_err())
}

// Whether an open wire is at 127.0.0.1, and not at another address of this machine. `None`: it couldn't be opened.
fn is_alone(rt: &HostRuntime) -> Option<bool> {
    let pulse = Pulse::new();
    let mut wire = UdpWire::new(rt.alloc(), *rt, &pulse);
    wire.open(0, 9).ok()?;
    let number = wire.number()?;
    let here = is_refused(rt, Ipv4Addr::LOCALHOST, number).ok()?;
    let there = is_refused(rt, Ipv4Addr::new(127, 0, 0, 2), number).ok()?;
    Some(!here && there)
}

#[test]
fn a_wire_is_open_to_this_machine_alone(rt: HostRuntime) {
    assert!(rt; is_alone(&rt) == Some(true));
}
