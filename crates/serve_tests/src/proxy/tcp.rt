// A connection over TCP.
use super::end_of;
use crate::links::{REQUEST, RESPONSE, link, listening};
use ended_port::EndWatch;
use mm_base::{EndError, Link, MemLink, Port};
use record_proxy::{Dialer, ProxyEnd, TcpDialer};
use std::alloc::Global;

// Whether a connection from the client to a site passes its request and the site's response.
fn passes_from<S: Link>(alloc: Global, client: &mut MemLink, server: &mut S, number: u16) -> bool {
    match end_of(alloc, client, server, number) {
        Ok((end, _)) => end == ProxyEnd::Closed && client.given() == RESPONSE.as_bytes(),
        Err(_) => false,
    }
}

// The same from a client in memory.
fn passes_on<S: Link>(alloc: Global, server: &mut S, number: u16) -> bool {
    match link(alloc, REQUEST.as_bytes(), 65_536, 0) {
        Ok(mut client) => passes_from(alloc, &mut client, server, number),
        Err(_) => false,
    }
}

// Whether a site's response passes over its dialed connection, and it can say more after that.
fn passes_between<S: Link, D: Link>(
    alloc: Global,
    site: &mut S,
    dialed: &mut D,
    number: u16,
) -> bool {
    site.write(RESPONSE.as_bytes()) == Ok(40)
        && passes_on(alloc, dialed, number)
        && site.write(b"unread") == Ok(6)
}

// Whether the site was asked 27 bytes, and then the output was ended.
fn was_asked<S: Link>(site: &mut S) -> bool {
    let mut asked = [0u8; 64];
    site.read(&mut asked) == Ok(27) && site.read(&mut asked) == Ok(0)
}

// Whether a connection that is dialed passes between its ends, and is finished at both.
fn is_joined<P: Port, X: Dialer>(alloc: Global, port: &mut P, dialer: &mut X, number: u16) -> bool {
    let Ok(mut dialed) = dialer.dial(number) else {
        return false;
    };
    let Ok(Some(mut site)) = port.accept() else {
        return false;
    };
    let has_passed = passes_between(alloc, &mut site, &mut dialed, number);
    let is_let_go = dialer.finish(dialed).is_ok();
    let was_asked = was_asked(&mut site);
    port.finish(site).is_ok() && has_passed && is_let_go && was_asked
}

// A dialer of TCP. `None`: it couldn't be had.
fn tcp_dialer<'a>(rt: &HostRuntime, watch: &'a EndWatch) -> Option<TcpDialer<'a, HostRuntime>> {
    match rt.clone() {
        Ok(rt) => Some(TcpDialer::new(rt, watch)),
        Err(_) => None,
    }
}

// Whether that is so of a server of this process at a port of TCP, and a client in memory. `None`: no port or dialer.
fn is_joined_over_tcp(rt: &HostRuntime, alloc: Global) -> Option<bool> {
    let mut port = listening(rt)?;
    let number = port.number()?;
    let watch = EndWatch::new(None);
    let mut dialer = tcp_dialer(rt, &watch)?;
    Some(is_joined(alloc, &mut port, &mut dialer, number))
}

#[test]
fn a_connection_of_tcp_is_dialed(rt: HostRuntime) {
    assert!(rt; is_joined_over_tcp(&rt, rt.alloc()) == Some(true));
}

// The number of a port of TCP that was let go.
fn number_let_go(rt: &HostRuntime) -> Option<u16> {
    let port = listening(rt)?;
    port.number()
}

// Whether a call fails that dials a port that was let go. `None`: there was no such port, or no dialer.
fn fails_to_dial(rt: &HostRuntime) -> Option<bool> {
    let number = number_let_go(rt)?;
    let watch = EndWatch::new(None);
    let mut dialer = tcp_dialer(rt, &watch)?;
    Some(matches!(dialer.dial(number), Err(EndError::Failed)))
}

#[test]
fn nobody_listens_at_a_port_that_was_let_go(rt: HostRuntime) {
    assert!(rt; fails_to_dial(&rt) == Some(true));
}
