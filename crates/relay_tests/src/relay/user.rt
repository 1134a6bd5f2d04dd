// Where a relay's user ends it.
use super::{Case, Done, is_as_said, relay_by, wire_of};
use crate::clocks::{Times, clock_of};
use crate::nests::nest_of;
use live_relay::{RelayEnd, Side};
use std::alloc::Global;
use std::process::Abort;

// A case's relay, whose user ends at the call of the clock of this number.
fn ended_by(rt: &impl Abort, alloc: Global, case: &Case, call: u64) -> Done {
    assert!(rt; 1 <= case.turns && case.turns <= 1_000_000);
    let mut wire = wire_of(alloc, case.answers, &[]).expect(rt, "memory");
    let nest = nest_of(rt, alloc, case.nest, case.horizon);
    let clock = clock_of(alloc, &case.times).expect(rt, "memory");
    let mut clock = clock.ending_at(call);
    let relayed = relay_by(alloc, nest, case.turns, &mut clock, &mut wire).expect(rt, "a relay");
    Done { relayed, wire }
}

// Two datagrams of the client, of which one has left at the moment of the end.
const TWO: Case = Case {
    nest: "mm-delay 5",
    horizon: 20,
    turns: 10,
    times: Times::FourTurns,
    answers: &[Some((Side::Client, 100)), Some((Side::Client, 200))],
    text: b"1 up departed 6\n2 up inside 1\n",
    logs: 0,
    rows: 2,
    refused: 0,
    end: RelayEnd::User,
    last: 6,
    before: &[0, 0, 0],
    to_server: &[100],
    to_client: &[],
};

// A datagram that waits in a link, whose log ends with the relay.
const LINKED: Case = Case {
    nest: "mm-link t t --uplink-log=u",
    horizon: 10,
    turns: 10,
    times: Times::OneTurn,
    answers: &[Some((Side::Client, 100))],
    text: b"1 up inside 1\n# base timestamp: 0\n4 # 1504\n4 + 100\n",
    logs: 1,
    rows: 1,
    refused: 0,
    end: RelayEnd::User,
    last: 4,
    before: &[0],
    to_server: &[],
    to_client: &[],
};

// The user ends in the last turn.
const LAST: Case = Case {
    nest: "mm-delay 0",
    horizon: 20,
    turns: 1,
    times: Times::FirstThenLate,
    answers: &[],
    text: b"",
    logs: 0,
    rows: 0,
    refused: 0,
    end: RelayEnd::User,
    last: 1,
    before: &[0],
    to_server: &[],
    to_client: &[],
};

// The user ends when the clock is past the horizon already.
const LATE: Case = Case {
    nest: "mm-delay 5",
    horizon: 20,
    turns: 10,
    times: Times::LastThenLate,
    answers: &[Some((Side::Client, 100))],
    text: b"1 up inside 1\n",
    logs: 0,
    rows: 1,
    refused: 0,
    end: RelayEnd::Horizon,
    last: 21,
    before: &[0],
    to_server: &[],
    to_client: &[],
};

// The cases, and at which call of the clock the user ends.
static CASES: [(Case, u64); 4] = [(TWO, 3), (LINKED, 1), (LAST, 1), (LATE, 2)];

#[test]
fn its_user_ends_it_at_the_moment_of_a_turn(rt: HostRuntime) {
    for (case, call) in &CASES {
        let done = ended_by(&rt, rt.alloc(), case, *call);
        is_as_said(&rt, rt.alloc(), case, &done);
    }
}
