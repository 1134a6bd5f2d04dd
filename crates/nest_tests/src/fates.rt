// Tests of the lines of fates, and of the types that threads may share.
use crate::checks::check;
use crate::inputs::is_text;
use nest_spec::{Fate, FateRow, Nest, NestWords, RunResult, print_fates};
use packet_record::Direction;
use std::alloc::Global;
use std::marker::{Send, Sync};
use std::process::Abort;

fn is_shared<T: Send + Sync>(_: &T) {}

// The words of a nest, the nest and the result of its run may be sent to other threads and shared between them.
fn cross(words: &NestWords, nest: &Nest, run: &RunResult) {
    is_shared(words);
    is_shared(nest);
    is_shared(run);
}

static ROWS: [FateRow; 4] = [
    FateRow {
        id: 1,
        direction: Direction::Up,
        fate: Fate::Departed { moment: 25 },
    },
    FateRow {
        id: 2,
        direction: Direction::Down,
        fate: Fate::Dropped {
            shell: 1,
            moment: 0,
        },
    },
    FateRow {
        id: 3,
        direction: Direction::Up,
        fate: Fate::Inside { shell: 8 },
    },
    FateRow {
        id: 1_000_000,
        direction: Direction::Down,
        fate: Fate::Unsent,
    },
];

// The lines of `ROWS`.
const LINES: &[u8] = b"1 up departed 25\n2 down dropped 1 0\n3 up inside 8\n1000000 down unsent\n";

// Returns whether the text of `fates` is `said`.
fn are_printed(rt: &impl Abort, alloc: Global, fates: &[FateRow], said: &[u8]) -> bool {
    is_text(rt, print_fates(alloc, fates), said)
}

#[test]
fn each_fate_has_its_line(rt: HostRuntime) {
    check(
        &rt,
        are_printed(&rt, rt.alloc(), &ROWS, LINES),
        "four lines",
    );
    check(&rt, are_printed(&rt, rt.alloc(), &[], b""), "no line");
}
