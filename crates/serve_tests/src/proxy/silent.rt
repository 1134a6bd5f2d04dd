// A dialed connection of TCP on which nobody says anything.
use crate::links::listening;
use ended_port::EndWatch;
use mm_base::{EndError, Link, Port, TcpLimits, TcpPort};
use record_proxy::{Dialer, TcpDialer};
use std::time::Duration;

// Limits of which each is a tenth of a second.
fn short_limits() -> TcpLimits {
    let limit = Duration::from_millis(100);
    TcpLimits {
        giving: limit,
        reading: Some(limit),
        leaving: limit,
    }
}

// Whether reading fails on a connection to a port that accepts and says nothing. `None`: no port or connection.
fn is_a_fault(rt: &HostRuntime) -> Option<bool> {
    let port: TcpPort<HostRuntime> = listening(rt)?;
    let number = port.number()?;
    let watch = EndWatch::new(None);
    let mut dialer = TcpDialer::with_limits(*rt, &watch, short_limits());
    let mut dialed = dialer.dial(number).ok()?;
    let read = dialed.read(&mut [0u8; 1]);
    dialer.finish(dialed).ok()?;
    Some(read == Err(EndError::Failed))
}

#[test]
fn a_site_that_says_nothing_is_a_fault(rt: HostRuntime) {
    assert!(rt; is_a_fault(&rt) == Some(true));
}
