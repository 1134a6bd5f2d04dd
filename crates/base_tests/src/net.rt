// Tests of connections, and of the ports at which they come in, in memory and over TCP.
ghost use Rattle.std.specs.Prelude.{◌≤◌, IfOk};
ghost use Rattle.mm_base.specs.MemLink.{IsUnused};

use crate::ports::{Beside, Numbered};
use mm_base::{EndError, Link, Listened, MemLink, MemPort, Port, TcpLimits, TcpPort};
use std::alloc::Global;
use std::net::{Ipv4Addr, SocketAddr, TcpStream};
use text_base::{Bytes, OutOfMemory};

fn goes_between_threads<T: Send>(_: &T) {}

// Returns a connection in memory. The calls whose numbers are in `fails` fail.
fn link_with(
    alloc: Global,
    input: &[u8],
    most: usize,
    fails: &[u64],
) -> Result<MemLink, OutOfMemory>
    requires { 1 ≤ most }
    ensures { IfOk result IsUnused }
{
    let input = Bytes::from_slice(alloc, input)?;
    Ok(MemLink::new(alloc, input, most, fails.to_vec(alloc)?))
}

// Returns whether a read into `buf` brings the bytes `said`.
fn reads<L: Link>(link: &mut L, buf: &mut [u8], said: &[u8]) -> bool {
    let read = link.read(buf);
    read == Ok(said.len()) && buf.starts_with(said)
}

// Returns whether a read fails.
fn read_fails<L: Link>(link: &mut L) -> bool {
    link.read(&mut [0u8; 8]) == Err(EndError::Failed)
}

// Returns whether writing a piece gives `said`.
fn writes<L: Link>(link: &mut L, piece: &[u8], said: Result<usize, EndError>) -> bool {
    link.write(piece) == said
}

// Returns whether the second and the fourth of four calls fail.
fn fails_twice(link: &mut MemLink) -> bool {
    reads(link, &mut [0u8; 8], b"abc")
        && read_fails(link)
        && writes(link, b"xy", Ok(2))
        && writes(link, b"z", Err(EndError::Failed))
}

// Returns whether the last byte of the input is read, and then its end.
fn reads_the_last(link: &mut MemLink) -> bool {
    let mut small = [0u8; 2];
    reads(link, &mut [], b"")
        && reads(link, &mut small, b"d")
        && small == *b"d\0"
        && reads(link, &mut small, b"")
}

#[test]
fn a_link_in_memory_fails_by_its_list(rt: HostRuntime) {
    let mut link = link_with(rt.alloc(), b"abcd", 3, &[2, 4]).expect(&rt, "memory");
    assert!(rt; fails_twice(&mut link) && reads_the_last(&mut link));
    link.close_output();
    assert!(rt; link.given() == b"xy".as_slice());
    goes_between_threads(&link);
}

// Returns a port in memory that gives two links. The calls whose numbers are in `fails` fail.
fn port_with(alloc: Global, fails: &[u64]) -> Result<MemPort, OutOfMemory> {
    let first = link_with(alloc, b"a", 1, &[])?;
    let second = link_with(alloc, b"b", 1, &[])?;
    let links = vec![in alloc; first, second]?;
    Ok(MemPort::new(alloc, links, fails.to_vec(alloc)?))
}

// Returns whether listening at `number` gives `said`.
fn listens<P: Port>(port: &mut P, number: u16, said: Result<(), EndError>) -> bool {
    port.listen(number) == said
}

// Returns the next link that the port gives, if it gives one.
fn accepted<P: Port>(port: &mut P) -> Option<P::Conn> {
    match port.accept() {
        Ok(link) => link,
        Err(_) => None,
    }
}

// Returns whether finishing a link gives `said`.
fn finishes<P: Port>(port: &mut P, link: P::Conn, said: Result<(), EndError>) -> bool {
    port.finish(link) == said
}

// Returns whether a port was asked to listen `times` times, at `number` last, and listens at `listening`.
fn was_asked(port: &MemPort, times: u64, number: u16, listening: Option<u16>) -> bool {
    let last = Some(number);
    port.listened()
        == (Listened {
            times,
            last,
            listening,
        })
}

// Returns whether the first listening and the first accepting fail.
fn begins(port: &mut MemPort) -> bool {
    port.listened() == Listened::never()
        && listens(port, 8_080, Err(EndError::Failed))
        && was_asked(port, 1, 8_080, None)
        && listens(port, 80, Ok(()))
        && was_asked(port, 2, 80, Some(80))
        && port.accept().is_err()
}

// Returns whether two links are accepted, and the first is finished, and the second with a fault.
fn finishes_two(port: &mut MemPort) -> bool {
    let (Some(mut first), Some(second)) = (accepted(port), accepted(port)) else {
        return false;
    };
    let is_written = writes(&mut first, b"1", Ok(1));
    let is_finished = finishes(port, first, Ok(()));
    finishes(port, second, Err(EndError::Failed)) && is_written && is_finished
}

// Returns whether no link is left.
fn gives_none(port: &mut MemPort) -> bool {
    matches!(port.accept(), Ok(None))
}

// Returns whether one link was finished, to which `given` was written.
fn has_finished_one(port: &MemPort, given: &[u8]) -> bool {
    match port.finished() {
        [only] => only.given() == given,
        _ => false,
    }
}

#[test]
fn a_port_in_memory_gives_its_links_in_order(rt: HostRuntime) {
    let mut port = port_with(rt.alloc(), &[1, 3, 7]).expect(&rt, "memory");
    assert!(rt; begins(&mut port) && finishes_two(&mut port));
    assert!(rt; gives_none(&mut port) && has_finished_one(&port, b"1"));
    goes_between_threads(&port);
}

// Listens at a number that is free, and returns it.
fn listen<P: Port + Numbered>(port: &mut P) -> Option<u16> {
    if port.number_of().is_some() || !listens(port, 0, Ok(())) {
        return None;
    }
    port.number_of()
}

// Returns whether no other port can listen at `number`.
fn is_taken(rt: &HostRuntime, number: u16) -> bool {
    match rt.clone() {
        Ok(rt) => listens(&mut TcpPort::new(rt), number, Err(EndError::Failed)),
        Err(_) => false,
    }
}

// Returns a client, and the link by which it came in, at a number at which no other port can listen.
fn connected<P: Port + Numbered>(rt: &HostRuntime, port: &mut P) -> Option<(TcpStream, P::Conn)> {
    let number = listen(port)?;
    if !is_taken(rt, number) {
        return None;
    }
    let address = SocketAddr::from((Ipv4Addr::LOCALHOST, number));
    let client = TcpStream::connect(rt, address).ok()?;
    let link = accepted(port)?;
    Some((client, link))
}

// Returns whether one of a hundred writes failed.
fn fails<L: Link>(link: &mut L) -> bool {
    let mut failed = false;
    for _ in 0..100 {
        failed = failed || link.write(b"more") == Err(EndError::Failed);
    }
    failed
}

// A client that resets its connection makes a write fail, and nothing else.
fn is_reset<P: Port + Numbered + Drop>(rt: &HostRuntime, port: P) -> Option<bool> {
    let mut port = port;
    let is_deaf = matches!(port.accept(), Err(EndError::Failed));
    let (client, mut link) = connected(rt, &mut port)?;
    goes_between_threads(&link);
    let is_given = writes(&mut link, b"unread", Ok(6));
    drop(client);
    Some(is_deaf && is_given && fails(&mut link) && finishes(&mut port, link, Ok(())))
}

#[test]
fn a_client_that_goes_away_is_a_fault(rt: HostRuntime) {
    let beside = Beside::new(&rt, TcpLimits::accepted()).expect(&rt, "a pipe");
    assert!(rt; is_reset(&rt, TcpPort::with_limits(rt, TcpLimits::accepted())) == Some(true));
    assert!(rt; is_reset(&rt, beside.nothing()) == Some(true));
    assert!(rt; is_reset(&rt, beside.an_open_pipe()) == Some(true));
}
