// A wire that fails.
use super::{Answer, relay_by, sizes_are, wire_of};
use crate::clocks::{Times, clock_of};
use crate::nests::nest_of;
use live_relay::{MemWire, Opened, RelayError, Side, Wire};
use mm_base::EndError;
use std::alloc::Global;
use std::process::Abort;

static THREE: [Answer; 3] = [
    Some((Side::Client, 10)),
    Some((Side::Server, 20)),
    Some((Side::Client, 30)),
];

// Which call fails, how the relay stops, and the sizes of what is sent to the server and to the client.
struct Stop {
    call: u64,
    error: Option<RelayError>,
    to_server: &'static [usize],
    to_client: &'static [usize],
}

// How a relay over this wire stops. It calls seven times.
fn error_of(rt: &impl Abort, alloc: Global, wire: &mut MemWire) -> Option<RelayError> {
    let nest = nest_of(rt, alloc, "mm-delay 2 mm-loss uplink 0", 20);
    let mut clock = clock_of(alloc, &Times::FourTurns).expect(rt, "memory");
    relay_by(alloc, nest, 10, &mut clock, wire).err()
}

// A relay of three datagrams stops so.
fn stops(rt: &impl Abort, alloc: Global, stop: &Stop) {
    let mut wire = wire_of(alloc, &THREE, &[stop.call]).expect(rt, "memory");
    assert!(rt; error_of(rt, alloc, &mut wire) == stop.error);
    assert!(rt; sizes_are(&wire, stop.to_server, stop.to_client));
}

// A relay whose call of this number fails.
macro_rules! stopped {
    ($call:expr, $to_server:expr, $to_client:expr) => {
        Stop {
            call: $call,
            error: Some(RelayError::WireFault),
            to_server: $to_server,
            to_client: $to_client,
        }
    };
}

// The relay receives at 1, 3 (and sends), 6 (and sends) and 7, and sends the last at 21. An eighth call isn't made.
static STOPS: [Stop; 8] = [
    stopped!(1, &[], &[]),
    stopped!(2, &[], &[]),
    stopped!(3, &[], &[]),
    stopped!(4, &[10], &[]),
    stopped!(5, &[10], &[]),
    stopped!(6, &[10], &[20]),
    stopped!(7, &[10], &[20]),
    Stop {
        call: 8,
        error: None,
        to_server: &[10, 30],
        to_client: &[20],
    },
];

#[test]
fn a_relay_stops_at_a_call_that_fails(rt: HostRuntime) {
    for stop in &STOPS {
        stops(&rt, rt.alloc(), stop);
    }
}

// Opens a wire, without what its contract says.
fn open(wire: &mut MemWire) -> Result<(), EndError> {
    wire.open(7, 9)
}

// What a wire tells that was asked to open twice, the first time in vain.
const TWICE: Opened = Opened {
    times: 2,
    last: Some((7, 9)),
    current: Some((7, 9)),
};

// Whether a wire has no ports after a call of `open` that fails, and has them after the next one.
fn opens_again(wire: &mut MemWire) -> bool {
    open(wire) == Err(EndError::Failed)
        && wire.opened().current.is_none()
        && open(wire).is_ok()
        && wire.opened() == TWICE
}

#[test]
fn a_wire_that_is_not_opened_has_no_ports(rt: HostRuntime) {
    let mut wire = wire_of(rt.alloc(), &[], &[1]).expect(&rt, "memory");
    assert!(rt; opens_again(&mut wire));
}
