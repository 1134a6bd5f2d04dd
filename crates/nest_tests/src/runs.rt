// Tests of small nests: the fates and logs of a run over whole lists and of one by steps.
use crate::checks::check;
use crate::inputs::is_text;
use crate::link_runs::{Pieces, put_together};
use crate::nests::{Coming, Prepared, Trip, plain_run, prepare, stepped_run};
use nest_plain::{NestRun, UnwrittenLog, run_nest};
use nest_spec::{Named, NamedLog, PackedFate, RunResult, print_fates, unpack_fates};
use shell_log::print_log;
use std::alloc::Global;
use std::process::Abort;

// The name of a log, and its text.
pub struct LogText {
    name: &'static str,
    text: &'static [u8],
}

// A run, and what it must give: the text of the fates, and the name and text of each log.
pub struct Case {
    pub trip: Trip,
    pub fates: &'static [u8],
    pub logs: &'static [LogText],
}

// Returns whether a log has the name and the text of `said`.
fn is_log(rt: &impl Abort, alloc: Global, named: &NamedLog, said: &LogText) -> bool {
    named.name.as_str() == said.name && is_text(rt, print_log(alloc, &named.log), said.text)
}

// Returns whether the logs have the names and texts of `said`.
fn are_logs(rt: &impl Abort, alloc: Global, logs: &[NamedLog], said: &[LogText]) -> bool {
    for i in 0..logs.len().min(said.len()) {
        if !is_log(rt, alloc, &logs[i], &said[i]) {
            return false;
        }
    }
    logs.len() == said.len()
}

// Returns whether a run gives what the case expects.
pub fn is_as_said(rt: &impl Abort, alloc: Global, case: &Case, run: &RunResult) -> bool {
    is_text(rt, print_fates(alloc, run.fates()), case.fates)
        && are_logs(rt, alloc, run.logs(), case.logs)
}

// Returns whether both runs give what the case expects.
fn are_as_said(rt: &impl Abort, alloc: Global, case: &Case, prepared: &Prepared) -> bool {
    is_as_said(rt, alloc, case, &plain_run(rt, alloc, prepared))
        && is_as_said(rt, alloc, case, &stepped_run(rt, alloc, prepared, &[]))
}

// Returns whether both runs of the case's nest give what the case expects.
fn gives(rt: &impl Abort, alloc: Global, case: &Case) -> bool {
    are_as_said(rt, alloc, case, &prepare(rt, alloc, &case.trip))
}

static CASES: [Case; 6] = [
    Case {
        trip: Trip {
            nest: "mm-delay 20",
            trace: b"",
            horizon: 100,
            coming: Coming::Rows(b"4 up 100\n90 down 100\n101 up 100\n"),
        },
        fates: b"1 up departed 24\n2 down inside 1\n3 up unsent\n",
        logs: &[],
    },
    Case {
        trip: Trip {
            nest: "mm-delay 10 mm-link t t --uplink-log=u",
            trace: b"4\n",
            horizon: 15,
            coming: Coming::Rows(b"0 up 100\n0 down 100\n5 up 100\n"),
        },
        fates: b"1 up departed 14\n2 down departed 12\n3 up inside 1\n",
        logs: &[LogText {
            name: "u",
            text: b"# base timestamp: 0\n0 + 100\n4 # 1504\n4 - 100 4\n5 + 100\n8 # 1504\n8 - 100 3\n\
                12 # 1504\n",
        }],
    },
    Case {
        trip: Trip {
            nest: "mm-delay 10 mm-link t t",
            trace: b"4\n",
            horizon: 100,
            coming: Coming::Rows(b"0 up 100\n0 down 100\n"),
        },
        fates: b"1 up departed 14\n2 down departed 12\n",
        logs: &[],
    },
    Case {
        trip: Trip {
            nest: "mm-link t t --uplink-log=u --uplink-queue=drophead --uplink-queue-args=packets=2",
            trace: b"1\n",
            horizon: 3,
            coming: Coming::Rows(b"0 up 1000\n0 up 1000\n1 up 800\n1 up 800\n1 up 700\n"),
        },
        fates: b"1 up departed 1\n2 up departed 2\n3 up dropped 1 1\n4 up departed 2\n5 up departed 3\n",
        logs: &[LogText {
            name: "u",
            text: b"# base timestamp: 0\n0 + 1000\n0 + 1000\n1 # 1504\n1 - 1000 1\n1 + 800\n1 + 800\n\
                1 + 700\n1 d 1 800\n2 # 1504\n2 - 1000 2\n2 - 800 1\n3 # 1504\n3 - 700 2\n",
        }],
    },
    Case {
        trip: Trip {
            nest: "mm-loss uplink 1",
            trace: b"",
            horizon: 9,
            coming: Coming::Rows(b"4 up 60\n4 down 60\n10 up 60\n"),
        },
        fates: b"1 up dropped 1 4\n2 down departed 4\n3 up unsent\n",
        logs: &[],
    },
    Case {
        trip: Trip {
            nest: "mm-link t t --downlink-log d --uplink-log u mm-link t t --downlink-log e",
            trace: b"1\n",
            horizon: 2,
            coming: Coming::Rows(b"0 up 1504\n"),
        },
        fates: b"1 up departed 2\n",
        logs: &[
            LogText {
                name: "u",
                text: b"# base timestamp: 0\n1 # 1504\n1 + 1504\n2 # 1504\n2 - 1504 1\n",
            },
            LogText {
                name: "d",
                text: b"# base timestamp: 0\n1 # 1504\n2 # 1504\n",
            },
            LogText {
                name: "e",
                text: b"# base timestamp: 0\n1 # 1504\n2 # 1504\n",
            },
        ],
    },
];

#[test]
fn small_nests_give_what_is_said(rt: HostRuntime) {
    for case in &CASES {
        check(&rt, gives(&rt, rt.alloc(), case), case.trip.nest);
    }
}

// Returns whether a log in pieces is one piece, with the entries of `written`.
fn is_one_piece(pieces: &Pieces, written: &NamedLog) -> bool {
    pieces.number == 1 && pieces.entries.as_slice() == written.log.entries()
}

// Returns whether a log that isn't written out has the name and the entries of `written`, in one piece.
fn is_made(rt: &impl Abort, alloc: Global, made: UnwrittenLog, written: &NamedLog) -> bool {
    let Named { name, log } = made;
    let log = log.into_link_log().expect(rt, "memory");
    let pieces = put_together(rt, alloc, log);
    name.as_str() == written.name.as_str() && is_one_piece(&pieces, written)
}

// Returns whether logs that aren't written out have the names and entries of `written`.
fn are_made(
    rt: &impl Abort,
    alloc: Global,
    logs: &mut Vec<UnwrittenLog>,
    written: &[NamedLog],
) -> bool {
    for same in written.iter().rev() {
        let last = logs.pop().expect(rt, "a log");
        if !is_made(rt, alloc, last, same) {
            return false;
        }
    }
    logs.is_empty()
}

// Returns whether packed fates are those of a run.
fn has_fates(rt: &impl Abort, alloc: Global, fates: &[PackedFate], run: &RunResult) -> bool {
    unpack_fates(alloc, fates).expect(rt, "memory").as_slice() == run.fates()
}

// Returns a run whose logs aren't written out.
fn unwritten_run(rt: &impl Abort, alloc: Global, prepared: &Prepared) -> NestRun {
    run_nest(alloc, &prepared.nest, &prepared.schedule).expect(rt, "memory")
}

// Returns whether a run whose logs aren't written out has two logs, and the fates and logs of `whole`.
fn is_unwritten(rt: &impl Abort, alloc: Global, run: NestRun, whole: &RunResult) -> bool {
    let (fates, mut logs) = run.into_parts();
    logs.len() == 2
        && has_fates(rt, alloc, &fates, whole)
        && are_made(rt, alloc, &mut logs, whole.logs())
}

// In the first the links are first in both directions, in the second behind a delay down.
static LOGGED: [Trip; 2] = [
    Trip {
        nest: "mm-link t t --uplink-log u --downlink-log d",
        trace: b"2\n",
        horizon: 4,
        coming: Coming::Rows(b"0 up 1000\n1 down 700\n"),
    },
    Trip {
        nest: "mm-delay 1 mm-link t t --uplink-log u --downlink-log d",
        trace: b"2\n",
        horizon: 4,
        coming: Coming::Rows(b"0 up 1000\n1 down 700\n"),
    },
];

// Returns whether a run gives the same with its logs written out and not.
fn makes_logs(rt: &impl Abort, alloc: Global, prepared: &Prepared) -> bool {
    let whole = plain_run(rt, alloc, prepared);
    is_unwritten(rt, alloc, unwritten_run(rt, alloc, prepared), &whole)
}

#[test]
fn makes_the_logs_that_are_written_out(rt: HostRuntime) {
    for trip in &LOGGED {
        let prepared = prepare(&rt, rt.alloc(), trip);
        check(&rt, makes_logs(&rt, rt.alloc(), &prepared), trip.nest);
    }
}
