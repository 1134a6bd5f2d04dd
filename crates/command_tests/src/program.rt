// What each command does if memory is ample, and lines of which `out` takes a prefix.
use crate::case::{Case, pass};
use crate::exchange::{CLIENT, OLD, SERVER, STORE};
use std::alloc::Global;
use std::marker::Sync;
use std::process::Abort;
use std::sync::Wait;
use std::thread::Threads;
use test_outside::ABSENT;

// The log of five packets through a queue of two, and its report.
const LOG: &str =
    "# base timestamp: 0\n0 + 1000\n0 + 1000\n1 # 1504\n1 - 1000 1\n1 + 800\n1 + 800\n1 + 700\n1 d 1 800\n2 # 1504\n\
        2 - 1000 2\n2 - 800 1\n3 # 1504\n3 - 700 2\n";

const REPORT: &str =
    "entries 13\nspan 0 3\narrived 5 4300\noffered 3 4512\ndeparted 4 3500\ndropped 1 800\nused 775\ndelay 1 2 2\n";

const SUMMARY: &str = "packets 3\ndeparted 3\ndropped 0\ninside 0\nunsent 0\nbytes 2524\nlast 26\n";

// A schedule whose packet is too long, another one, a list of two senders, a log, both streams of a connection, and
// their stores.
const FILES: &[(&str, &str)] = &[
    ("x", "0 up 1505\n"),
    ("s", "5 up 100\n"),
    ("m", "s\ns\n"),
    ("l", LOG),
    ("c", CLIENT),
    ("r", SERVER),
    ("k", STORE),
    ("old", OLD),
];

// The words, which call of `out` fails, the status, what is printed, and what `f` holds.
type Row = (&'static str, u64, u8, &'static str, &'static str);

// A command line leaves what a row states.
fn leaves<R: Abort + Threads + Wait + Sync>(rt: &R, alloc: Global, row: &Row) {
    let (words, call, status, printed, made) = *row;
    let case = Case {
        words,
        files: FILES,
        fails: (0, call),
        status,
        printed,
        left: &[("f", made)],
    };
    pass(rt, alloc, &case);
}

const DEPARTED: &str = "1 up departed 25\n";

static JOBS: [Row; 13] = [
    (
        "run --until 100 --schedule s --out f -- mm-delay 20",
        0,
        0,
        "",
        DEPARTED,
    ),
    (
        "run --until 100 --schedule s --out f --plain -- mm-delay 20",
        0,
        0,
        "",
        DEPARTED,
    ),
    (
        "run --until 100 --schedule s --out f --order s -- mm-delay 20",
        0,
        0,
        "",
        DEPARTED,
    ),
    (
        "merge --until 100 --senders m --out f -- mm-delay 20",
        0,
        0,
        "",
        "1 1 up departed 25\n2 1 up departed 25\n",
    ),
    ("record --client c --server r --out f", 0, 0, "", STORE),
    ("migrate --store old --out f", 0, 0, "", STORE),
    ("match --store k --request c", 0, 0, "1\n", ABSENT),
    ("match --store k --request c", 1, 7, "", ABSENT),
    ("match --store k --request c", 2, 0, "1\n", ABSENT),
    ("report --log l", 0, 0, REPORT, ABSENT),
    ("report --log l", 1, 7, "", ABSENT),
    ("make --number 1 --packets 3", 0, 0, SUMMARY, ABSENT),
    ("make --number 1 --packets 3", 1, 7, "", ABSENT),
];

#[test]
fn each_command_does_its_job(rt: HostRuntime) {
    for row in &JOBS {
        leaves(&rt, rt.alloc(), row);
    }
}

const TOO_LONG: &str = "run --until 9 --schedule x --out f -- mm-delay 20";

const NO_RATE: &str = "run --until 9 --schedule s --out f -- mm-loss uplink 2";

// The prefix of the line that is printed if each call of `out` fails. The first line is written in seven pieces.
static FRONTS: [Row; 10] = [
    (TOO_LONG, 1, 4, "", ABSENT),
    (TOO_LONG, 2, 4, "mm: bad input ", ABSENT),
    (TOO_LONG, 3, 4, "mm: bad input x", ABSENT),
    (TOO_LONG, 4, 4, "mm: bad input x ", ABSENT),
    (TOO_LONG, 5, 4, "mm: bad input x 2", ABSENT),
    (TOO_LONG, 6, 4, "mm: bad input x 2 ", ABSENT),
    (TOO_LONG, 7, 4, "mm: bad input x 2 1", ABSENT),
    (TOO_LONG, 8, 4, "mm: bad input x 2 1\n", ABSENT),
    (NO_RATE, 5, 2, "mm: nest 9 1", ABSENT),
    (NO_RATE, 7, 2, "mm: nest 9 1 2", ABSENT),
];

#[test]
fn each_call_of_the_sink_fails_in_turn(rt: HostRuntime) {
    for row in &FRONTS {
        leaves(&rt, rt.alloc(), row);
    }
}
