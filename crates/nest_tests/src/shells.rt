// Tests of a shell of each kind that runs over a whole list of packets.
use crate::checks::check;
use crate::directions::{Kind, direction_of, log_of};
use crate::packets::{Ways, in_order, timed, went};
use shell_log::{Log, print_log};
use shell_state::{Passage, run_whole};
use std::alloc::Global;
use std::process::Abort;

// A kind of shell, and what must become of three packets, up to 100 ms.
struct Case {
    name: &'static str,
    kind: Kind,
    ways: Ways,
}

// Runs a shell over three packets, up to 100 ms, and asks for its log where `logged`.
fn pass(rt: &impl Abort, alloc: Global, kind: Kind, logged: bool) -> Passage {
    let three = [timed(5, 1), timed(80, 2), timed(81, 3)];
    let packets = in_order(rt, alloc, 100, &three);
    let direction = direction_of(rt, alloc, kind, 100);
    run_whole(alloc, direction, 100, logged, packets).expect(rt, "memory")
}

// Returns whether the packets went their ways, and only a link that was asked for its log has one.
fn is_as_said(passage: &Passage, case: &Case, logged: bool) -> bool {
    passage.log.is_some() == (logged && matches!(case.kind, Kind::Link(..)))
        && went(&passage.departed, &passage.lost, &passage.held, &case.ways)
}

// Returns whether the packets go through a shell as the case expects.
fn passes(rt: &impl Abort, alloc: Global, case: &Case, logged: bool) -> bool {
    is_as_said(&pass(rt, alloc, case.kind, logged), case, logged)
}

// A link with an opportunity of 1504 bytes every 4 ms, and room for one packet.
const FULL: Kind = Kind::Link(b"4\n", "droptail", "packets=1");

static CASES: [Case; 4] = [
    Case {
        name: "all pass",
        kind: Kind::Pass,
        ways: Ways {
            departed: &[(1, 5), (2, 80), (3, 81)],
            lost: &[],
            inside: &[],
        },
    },
    Case {
        name: "a delay up to the horizon",
        kind: Kind::Delay(20),
        ways: Ways {
            departed: &[(1, 25), (2, 100)],
            lost: &[],
            inside: &[3],
        },
    },
    Case {
        name: "a loss of all",
        kind: Kind::Loss("1", 7, 0),
        ways: Ways {
            departed: &[],
            lost: &[(1, 5), (2, 80), (3, 81)],
            inside: &[],
        },
    },
    Case {
        name: "no room at a link",
        kind: FULL,
        ways: Ways {
            departed: &[(1, 8), (2, 84)],
            lost: &[(3, 81)],
            inside: &[],
        },
    },
];

#[test]
fn packets_pass_each_kind(rt: HostRuntime) {
    for case in &CASES {
        check(&rt, passes(&rt, rt.alloc(), case, true), case.name);
        check(&rt, passes(&rt, rt.alloc(), case, false), case.name);
    }
}

// The first lines of the log of `FULL`.
const START: &[u8] = b"# base timestamp: 0\n4 # 1504\n5 + 1000\n8 # 1504\n8 - 1000 3\n";

// Returns whether the text of a log begins with `start`.
fn starts(rt: &impl Abort, alloc: Global, log: &Log, start: &[u8]) -> bool {
    let text = print_log(alloc, log).expect(rt, "memory");
    text.as_slice().starts_with(start)
}

// Returns whether the log of a shell with the three packets begins with `start`.
fn logs(rt: &impl Abort, alloc: Global, kind: Kind, start: &[u8]) -> bool {
    starts(rt, alloc, &log_of(rt, pass(rt, alloc, kind, true)), start)
}

#[test]
fn a_full_link_logs_its_packets(rt: HostRuntime) {
    check(
        &rt,
        logs(&rt, rt.alloc(), FULL, START),
        "the start of the log",
    );
}
