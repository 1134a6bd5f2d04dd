// Runs and merges.
use super::{Failing, Files, Job, fails_in_turn};
use test_outside::ABSENT;

// The first line of a log, which is appended by itself.
const FIRST: &str = "# base timestamp: 0\n";

const NO_FILES: Files = &[("u", ABSENT), ("d", ABSENT), ("f", ABSENT)];

const LINK_FILES: Files = &[("t", "1\n"), ("x", "1\n"), ("o", "x"), ("s", "1 up 1504\n")];

const UP: &str = "# base timestamp: 0\n1 # 1504\n1 + 1504\n2 # 1504\n2 - 1504 1\n";

const DOWN: &str = "# base timestamp: 0\n1 # 1504\n2 # 1504\n";

// The calls are: a size and a read for each of `t`, `x` and `s`, a creation for each of `u`, `d` and `f`, an append for
// the first line of `u` and of `d`, and one for the lines of each file.
const LINK_CALLS: &[Failing] = &[
    (1, 6, "mm: read fault t\n", NO_FILES),
    (2, 6, "mm: read fault t\n", NO_FILES),
    (3, 6, "mm: read fault x\n", NO_FILES),
    (4, 6, "mm: read fault x\n", NO_FILES),
    (5, 6, "mm: read fault s\n", NO_FILES),
    (6, 6, "mm: read fault s\n", NO_FILES),
    (7, 7, "mm: write fault u\n", NO_FILES),
    (
        8,
        7,
        "mm: write fault u\n",
        &[("u", ""), ("d", ABSENT), ("f", ABSENT)],
    ),
    (
        9,
        7,
        "mm: write fault u\n",
        &[("u", FIRST), ("d", ABSENT), ("f", ABSENT)],
    ),
    (
        10,
        7,
        "mm: write fault d\n",
        &[("u", UP), ("d", ABSENT), ("f", ABSENT)],
    ),
    (
        11,
        7,
        "mm: write fault d\n",
        &[("u", UP), ("d", ""), ("f", ABSENT)],
    ),
    (
        12,
        7,
        "mm: write fault d\n",
        &[("u", UP), ("d", FIRST), ("f", ABSENT)],
    ),
    (
        13,
        7,
        "mm: write fault f\n",
        &[("u", UP), ("d", DOWN), ("f", ABSENT)],
    ),
    (
        14,
        7,
        "mm: write fault f\n",
        &[("u", UP), ("d", DOWN), ("f", "")],
    ),
    (
        15,
        0,
        "",
        &[("u", UP), ("d", DOWN), ("f", "1 up departed 2\n")],
    ),
];

// A run over threads, and one shell by shell.
static LINKS: [Job; 2] = [
    Job {
        words: "run --until 2 --schedule s --out f -- mm-link t x --downlink-log=d --uplink-log=u",
        files: LINK_FILES,
        calls: LINK_CALLS,
    },
    Job {
        words: "run --until 2 --schedule s --out f --plain -- mm-link t x --downlink-log=d --uplink-log=u",
        files: LINK_FILES,
        calls: LINK_CALLS,
    },
];

#[test]
fn each_call_of_a_run_fails_in_turn(rt: HostRuntime) {
    for job in &LINKS {
        fails_in_turn(&rt, rt.alloc(), job);
    }
}

const LATE_UP: &str =
    "# base timestamp: 0\n0 + 100\n1 # 1504\n1 - 100 1\n2 # 1504\n3 # 1504\n4 # 1504\n";

const LATE_DOWN: &str = "# base timestamp: 0\n2 # 1504\n2 + 100\n4 # 1504\n4 - 100 2\n";

// A delay before the link changes no call of the disk.
static DELAYED: Job = Job {
    words: "run --until 4 --schedule s --out f -- mm-delay 2 mm-link t v --uplink-log=u --downlink-log=d",
    files: &[("t", "1\n"), ("v", "2\n"), ("s", "0 up 100\n0 down 100\n")],
    calls: &[
        (1, 6, "mm: read fault t\n", NO_FILES),
        (2, 6, "mm: read fault t\n", NO_FILES),
        (3, 6, "mm: read fault v\n", NO_FILES),
        (4, 6, "mm: read fault v\n", NO_FILES),
        (5, 6, "mm: read fault s\n", NO_FILES),
        (6, 6, "mm: read fault s\n", NO_FILES),
        (7, 7, "mm: write fault u\n", NO_FILES),
        (
            8,
            7,
            "mm: write fault u\n",
            &[("u", ""), ("d", ABSENT), ("f", ABSENT)],
        ),
        (
            9,
            7,
            "mm: write fault u\n",
            &[("u", FIRST), ("d", ABSENT), ("f", ABSENT)],
        ),
        (
            10,
            7,
            "mm: write fault d\n",
            &[("u", LATE_UP), ("d", ABSENT), ("f", ABSENT)],
        ),
        (
            11,
            7,
            "mm: write fault d\n",
            &[("u", LATE_UP), ("d", ""), ("f", ABSENT)],
        ),
        (
            12,
            7,
            "mm: write fault d\n",
            &[("u", LATE_UP), ("d", FIRST), ("f", ABSENT)],
        ),
        (
            13,
            7,
            "mm: write fault f\n",
            &[("u", LATE_UP), ("d", LATE_DOWN), ("f", ABSENT)],
        ),
        (
            14,
            7,
            "mm: write fault f\n",
            &[("u", LATE_UP), ("d", LATE_DOWN), ("f", "")],
        ),
        (
            15,
            0,
            "",
            &[
                ("u", LATE_UP),
                ("d", LATE_DOWN),
                ("f", "1 up departed 3\n2 down departed 4\n"),
            ],
        ),
    ],
};

#[test]
fn threads_stop_at_each_failing_call(rt: HostRuntime) {
    fails_in_turn(&rt, rt.alloc(), &DELAYED);
}

// The calls are: a size and a read for the trace of each direction, for the order and for the schedule, then a creation
// and two appends for `u`, and a creation and an append for `f`.
static ORDERED: Job = Job {
    words: "run --until 2 --schedule s --out f --order o -- mm-link t t --uplink-log=u",
    files: LINK_FILES,
    calls: &[
        (4, 6, "mm: read fault t\n", NO_FILES),
        (5, 6, "mm: read fault o\n", NO_FILES),
        (6, 6, "mm: read fault o\n", NO_FILES),
        (7, 6, "mm: read fault s\n", NO_FILES),
        (9, 7, "mm: write fault u\n", NO_FILES),
        (10, 7, "mm: write fault u\n", &[("u", "")]),
        (11, 7, "mm: write fault u\n", &[("u", FIRST)]),
        (12, 7, "mm: write fault f\n", &[("u", UP)]),
        (14, 0, "", &[("u", UP)]),
    ],
};

#[test]
fn an_order_is_read_before_the_schedule(rt: HostRuntime) {
    fails_in_turn(&rt, rt.alloc(), &ORDERED);
}

const MERGED: &str = "# base timestamp: 0\n0 + 100\n1 # 1504\n1 - 100 1\n";

const FATES: &str = "1 1 up departed 1\n2 1 down unsent\n";

// The calls are: a size and a read for each of `t`, `x`, the list and the schedules, a creation for each of `u` and
// `f`, an append for the first line of `u`, and one for the lines of each file.
static SENDERS: Job = Job {
    words: "merge --until 1 --senders l --out f -- mm-link t x --uplink-log=u",
    files: &[
        ("t", "1\n"),
        ("x", "1\n"),
        ("l", "s\nz\n"),
        ("s", "0 up 100\n"),
        ("z", "2 down 100\n"),
    ],
    calls: &[
        (1, 6, "mm: read fault t\n", NO_FILES),
        (2, 6, "mm: read fault t\n", NO_FILES),
        (3, 6, "mm: read fault x\n", NO_FILES),
        (4, 6, "mm: read fault x\n", NO_FILES),
        (5, 6, "mm: read fault l\n", NO_FILES),
        (6, 6, "mm: read fault l\n", NO_FILES),
        (7, 6, "mm: read fault s\n", NO_FILES),
        (8, 6, "mm: read fault s\n", NO_FILES),
        (9, 6, "mm: read fault z\n", NO_FILES),
        (10, 6, "mm: read fault z\n", NO_FILES),
        (11, 7, "mm: write fault u\n", NO_FILES),
        (12, 7, "mm: write fault u\n", &[("u", ""), ("f", ABSENT)]),
        (13, 7, "mm: write fault u\n", &[("u", FIRST), ("f", ABSENT)]),
        (
            14,
            7,
            "mm: write fault f\n",
            &[("u", MERGED), ("f", ABSENT)],
        ),
        (15, 7, "mm: write fault f\n", &[("u", MERGED), ("f", "")]),
        (16, 0, "", &[("u", MERGED), ("f", FATES)]),
    ],
};

#[test]
fn each_call_of_a_merge_fails_in_turn(rt: HostRuntime) {
    fails_in_turn(&rt, rt.alloc(), &SENDERS);
}
