// What passes: rows, what is sent and when, and logs.
use super::{Case, passes};
use crate::clocks::Times;
use live_relay::{MemWire, RelayEnd, Side};

// A datagram of the client up to 20.
static ONE: Case = Case {
    nest: "mm-delay 5",
    horizon: 20,
    turns: 10,
    times: Times::ThreeTurns,
    answers: &[Some((Side::Client, 100))],
    text: b"1 up departed 6\n",
    logs: 0,
    rows: 1,
    refused: 0,
    end: RelayEnd::Horizon,
    last: 21,
    before: &[0, 0, 0],
    to_server: &[100],
    to_client: &[],
};

static ONES: [u8; 100] = [1; 100];

// Whether the first datagram to the server has 100 bytes, all of them 1.
fn is_first(wire: &MemWire) -> bool {
    match wire.sent(Side::Server).first() {
        Some(first) => first.as_slice() == ONES.as_slice(),
        None => false,
    }
}

#[test]
fn a_datagram_is_sent_in_the_first_turn_that_reaches_its_moment(rt: HostRuntime) {
    let done = passes(&rt, rt.alloc(), &ONE);
    assert!(rt; is_first(&done.wire));
}

// The same datagram, and a turn at 7: it is sent before the next receive.
const ONE_AND_A_TURN: Case = Case {
    nest: "mm-delay 5",
    horizon: 20,
    turns: 10,
    times: Times::FourTurns,
    answers: &[Some((Side::Client, 100))],
    text: b"1 up departed 6\n",
    logs: 0,
    rows: 1,
    refused: 0,
    end: RelayEnd::Horizon,
    last: 21,
    before: &[0, 0, 0, 1],
    to_server: &[100],
    to_client: &[],
};

// What passes a link whose trace is 4, up to 10, where the client sends `$size` bytes at 4.
macro_rules! linked {
    ($size:expr, $text:expr, $rows:expr, $refused:expr, $to_server:expr) => {
        Case {
            nest: "mm-link t t --uplink-log=u",
            horizon: 10,
            turns: 10,
            times: Times::OneTurn,
            answers: &[Some((Side::Client, $size))],
            text: $text,
            logs: 1,
            rows: $rows,
            refused: $refused,
            end: RelayEnd::Horizon,
            last: 12,
            before: &[0],
            to_server: $to_server,
            to_client: &[],
        }
    };
}

const BUSY: &[u8] =
    b"1 up departed 8\n# base timestamp: 0\n4 # 1504\n4 + 100\n8 # 1504\n8 - 100 4\n";

const IDLE: &[u8] = b"# base timestamp: 0\n4 # 1504\n8 # 1504\n";

const LONG_OR_EMPTY: Case = Case {
    nest: "mm-delay 0",
    horizon: 20,
    turns: 4,
    times: Times::StandingAtSeven,
    answers: &[
        Some((Side::Client, 1_505)),
        Some((Side::Server, 0)),
        Some((Side::Server, 1_504)),
        Some((Side::Client, 1)),
    ],
    text: b"1 down departed 6\n2 up departed 7\n",
    logs: 0,
    rows: 2,
    refused: 2,
    end: RelayEnd::Turns,
    last: 7,
    before: &[0, 0, 0, 0],
    to_server: &[1],
    to_client: &[1_504],
};

const DUE_LATE: Case = Case {
    nest: "mm-link t t",
    horizon: 10,
    turns: 10,
    times: Times::FourTurns,
    answers: &[None, Some((Side::Server, 100)), Some((Side::Client, 100))],
    text: b"1 down departed 4\n2 up departed 8\n",
    logs: 0,
    rows: 2,
    refused: 0,
    end: RelayEnd::Horizon,
    last: 21,
    before: &[0, 0, 0, 0],
    to_server: &[100],
    to_client: &[100],
};

// A link has its log, a datagram that is too long or empty is refused, and what is due past the horizon is sent at it.
static CASES: [Case; 6] = [
    ONE_AND_A_TURN,
    linked!(100, BUSY, 1, 0, &[100]),
    linked!(1_505, IDLE, 0, 1, &[]),
    linked!(0, IDLE, 0, 1, &[]),
    LONG_OR_EMPTY,
    DUE_LATE,
];

#[test]
fn rows_logs_and_datagrams_are_as_stated(rt: HostRuntime) {
    for case in &CASES {
        passes(&rt, rt.alloc(), case);
    }
}
