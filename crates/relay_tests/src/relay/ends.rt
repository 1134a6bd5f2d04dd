// Where a relay ends, by its clock and its turns.
use super::{Case, passes};
use crate::clocks::Times;
use live_relay::{RelayEnd, Side};

// A relay without datagrams up to 20.
macro_rules! silent {
    ($turns:expr, $times:expr, $end:expr, $last:expr, $before:expr) => {
        Case {
            nest: "mm-delay 0",
            horizon: 20,
            turns: $turns,
            times: $times,
            answers: &[],
            text: b"",
            logs: 0,
            rows: 0,
            refused: 0,
            end: $end,
            last: $last,
            before: $before,
            to_server: &[],
            to_client: &[],
        }
    };
}

const STANDING: Case = Case {
    nest: "mm-delay 0",
    horizon: 20,
    turns: 4,
    times: Times::Standing,
    answers: &[
        Some((Side::Client, 1)),
        Some((Side::Client, 2)),
        Some((Side::Client, 3)),
    ],
    text: b"1 up departed 5\n2 up departed 5\n3 up departed 5\n",
    logs: 0,
    rows: 3,
    refused: 0,
    end: RelayEnd::Turns,
    last: 5,
    before: &[0, 1, 2, 3],
    to_server: &[1, 2, 3],
    to_client: &[],
};

// No datagrams, and at last a clock that stands and lets all turns pass.
static CASES: [Case; 6] = [
    silent!(5, Times::Late, RelayEnd::Horizon, 21, &[]),
    silent!(5, Times::LastThenLate, RelayEnd::Horizon, 21, &[0]),
    silent!(2, Times::FirstThenLate, RelayEnd::Horizon, 21, &[0]),
    silent!(1, Times::FirstThenLate, RelayEnd::Turns, 1, &[0]),
    silent!(3, Times::Last, RelayEnd::Turns, 20, &[0, 0, 0]),
    STANDING,
];

#[test]
fn it_ends_past_the_horizon_or_after_its_turns(rt: HostRuntime) {
    for case in &CASES {
        passes(&rt, rt.alloc(), case);
    }
}
