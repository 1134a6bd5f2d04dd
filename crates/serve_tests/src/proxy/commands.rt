// The whole program over a disk, an `out`, a port and a dialer in memory.
use super::status_of;
use crate::links::{REQUEST, RESPONSE, links, port_of};
use mm_base::MemPort;
use record_proxy::MemDialer;
use std::alloc::Global;
use std::marker::Sync;
use std::process::Abort;
use std::sync::Wait;
use std::thread::Threads;
use test_outside::{ABSENT, TestOutside};
use text_base::OutOfMemory;

const WORDS: &str = "--port 80 --to 8080 --connections 1 --out s";

const STORE: &str =
    "MMSTORE 2\nrecord http 8080 27 40\nGET / HTTP/1.1\r\nHost: a\r\n\r\nHTTP/1.1 200 OK\r\nContent-Length: 2\r\n\r\n\
        hi\n";

const NO_RECORD: &str = "MMSTORE 2\n";

// What stood in the file `s` before a run.
const OLD_STORE: &str = "MMSTORE 2\nwhat stood there";

// The calls of these numbers fail, of the disk, of `out`, of the port, of the dialer, and of the server's link.
#[derive(Clone, Copy)]
struct Fails {
    disk: u64,
    out: u64,
    port: u64,
    dialer: u64,
    server: u64,
}

const NONE: Fails = Fails {
    disk: 0,
    out: 0,
    port: 0,
    dialer: 0,
    server: 0,
};

// A run: its words, the files before it, what each client says and the call of its link that fails, what the one server
// says, and which other calls fail. Then its status, what it prints, what it leaves in the file `s`, and whether a
// second client is given nothing.
#[derive(Clone, Copy)]
struct Case {
    words: &'static str,
    before: &'static [(&'static str, &'static str)],
    clients: &'static [(&'static str, u64)],
    said: &'static str,
    fails: Fails,
    status: u8,
    printed: &'static str,
    store: &'static str,
    refuses_second: bool,
}

// A connection is recorded.
const DONE: Case = Case {
    words: WORDS,
    before: &[],
    clients: &[(REQUEST, 0)],
    said: RESPONSE,
    fails: NONE,
    status: 0,
    printed: "closed 1 bad 0 broken 0 full 0\n",
    store: STORE,
    refuses_second: false,
};

// A dialer of one server that says this. Its link's call of that number fails, and so does its own.
fn dialer_of(
    alloc: Global,
    said: &str,
    link_fail: u64,
    fail: u64,
) -> Result<MemDialer, OutOfMemory> {
    let links = links(alloc, &[(said, link_fail)], 65_536)?;
    Ok(MemDialer::new(alloc, links, Vec::from_slice(alloc, &[fail])?))
}

// Whether one server and two clients are finished, the second of which was given nothing.
fn refuses_second(port: &MemPort, dialer: &MemDialer) -> bool {
    match port.finished() {
        [_, second] => dialer.finished().len() == 1 && second.given().is_empty(),
        _ => false,
    }
}

// The status of a run over this disk and this `out`, and whether it refuses a second client.
fn status_in<R: Threads + Wait + Sync>(
    rt: &R,
    alloc: Global,
    case: &Case,
    outside: &mut TestOutside,
) -> Result<(u8, bool), OutOfMemory> {
    let mut port = port_of(alloc, case.clients, 65_536, case.fails.port)?;
    let mut dialer = dialer_of(alloc, case.said, case.fails.server, case.fails.dialer)?;
    let status = status_of(rt, alloc, case.words, outside, &mut port, &mut dialer)?;
    Ok((status, refuses_second(&port, &dialer)))
}

// Whether a run over this disk and this `out` has its status, and leaves what it should.
fn leaves<R: Threads + Wait + Sync>(
    rt: &R,
    alloc: Global,
    case: &Case,
    outside: &mut TestOutside,
) -> bool {
    status_in(rt, alloc, case, outside) == Ok((case.status, case.refuses_second))
        && outside.is_left(case.printed, &[("s", case.store)])
}

// The same over a disk and an `out` of its own.
fn is_left<R: Threads + Wait + Sync>(rt: &R, alloc: Global, case: &Case) -> bool {
    match TestOutside::new(alloc, case.before, &[case.fails.disk], &[case.fails.out]) {
        Ok(mut outside) => leaves(rt, alloc, case, &mut outside),
        Err(_) => false,
    }
}

// Each run leaves what it should.
fn are_left<R: Abort + Threads + Wait + Sync>(rt: &R, alloc: Global, cases: &[Case]) {
    for case in cases {
        assert!(rt;
            is_left(rt, alloc, case),
            "at {}, which leaves {} and {}",
            case.words,
            case.printed,
            case.store
        );
    }
}

// A bad connection isn't recorded.
const BAD: Case = Case {
    printed: "closed 0 bad 1 broken 0 full 0\n",
    store: NO_RECORD,
    ..DONE
};

// A run of each kind, words in another form, a response and a request that are cut, and no connection.
static RECORDED: [Case; 5] = [
    DONE,
    Case {
        words: "--out=s --connections=64 --to=08080 --port=65535",
        ..DONE
    },
    Case {
        said: "HTTP/1.1 200 OK\r\n",
        ..BAD
    },
    Case {
        clients: &[("GET / HTTP/1.1\r\nHost: a", 0)],
        ..BAD
    },
    Case {
        words: "--port 80 --to 8080 --connections 0 --out s",
        printed: "closed 0 bad 0 broken 0 full 0\n",
        store: NO_RECORD,
        ..DONE
    },
];

#[test]
fn a_connection_is_recorded_and_counted(rt: HostRuntime) {
    are_left(&rt, rt.alloc(), &RECORDED);
}

// A disk that can't be written, a port that fails, and a connection that breaks.
const UNWRITTEN: Case = Case {
    status: 7,
    printed: "mm: write fault s\n",
    ..DONE
};

const NET_FAULT: Case = Case {
    status: 8,
    printed: "mm: net fault\n",
    store: ABSENT,
    ..DONE
};

const BROKEN: Case = Case {
    printed: "closed 0 bad 0 broken 1 full 0\n",
    ..DONE
};

const BROKEN_BEFORE: Case = Case {
    store: NO_RECORD,
    ..BROKEN
};

// The client's link is read, written and read again, the server's is written and read.
static FAULTS: [Case; 13] = [
    Case {
        fails: Fails { disk: 1, ..NONE },
        store: ABSENT,
        ..UNWRITTEN
    },
    Case {
        fails: Fails { disk: 2, ..NONE },
        store: "",
        ..UNWRITTEN
    },
    Case {
        fails: Fails { out: 1, ..NONE },
        printed: "",
        ..UNWRITTEN
    },
    Case {
        fails: Fails { port: 1, ..NONE },
        ..NET_FAULT
    },
    Case {
        fails: Fails { port: 2, ..NONE },
        ..NET_FAULT
    },
    Case {
        fails: Fails { port: 3, ..NONE },
        ..NET_FAULT
    },
    Case {
        fails: Fails { dialer: 1, ..NONE },
        ..BROKEN_BEFORE
    },
    Case {
        fails: Fails { dialer: 2, ..NONE },
        ..BROKEN
    },
    Case {
        clients: &[(REQUEST, 1)],
        ..BROKEN_BEFORE
    },
    Case {
        clients: &[(REQUEST, 2)],
        ..BROKEN_BEFORE
    },
    Case {
        clients: &[(REQUEST, 3)],
        ..BROKEN
    },
    Case {
        fails: Fails { server: 1, ..NONE },
        ..BROKEN_BEFORE
    },
    Case {
        fails: Fails { server: 2, ..NONE },
        ..BROKEN_BEFORE
    },
];

#[test]
fn each_fault_has_its_status(rt: HostRuntime) {
    are_left(&rt, rt.alloc(), &FAULTS);
}

// Runs that last until the port has no more clients.
static UNTIL_ENDED: [Case; 5] = [
    Case {
        words: "--port 80 --to 8080 --connections 64 --out s --until-ended",
        ..DONE
    },
    Case {
        words: "--until-ended --port 80 --to 8080 --connections 1 --out s",
        before: &[("s", OLD_STORE)],
        ..DONE
    },
    Case {
        words: "--until-ended --port 80 --to 8080 --connections 1 --out s",
        fails: Fails { port: 1, ..NONE },
        ..NET_FAULT
    },
    Case {
        words: "--until-ended --port 80 --to 8080 --connections 1 --out s",
        fails: Fails { port: 2, ..NONE },
        ..NET_FAULT
    },
    Case {
        words: "--until-ended --port 80 --to 8080 --connections 1 --out s",
        fails: Fails { dialer: 2, ..NONE },
        ..BROKEN
    },
];

#[test]
fn clients_are_recorded_until_there_are_no_more(rt: HostRuntime) {
    are_left(&rt, rt.alloc(), &UNTIL_ENDED);
}

// Runs until ended of which there is no record, over a file and without one: nobody comes, none can be dialed, and a
// response is cut. The disk's first call would fail.
const NOTHING: Case = Case {
    words: "--until-ended --port 80 --to 8080 --connections 1 --out s",
    before: &[("s", OLD_STORE)],
    fails: Fails { disk: 1, ..NONE },
    store: OLD_STORE,
    ..DONE
};

static NOTHING_RECORDED: [Case; 4] = [
    Case {
        clients: &[],
        printed: "closed 0 bad 0 broken 0 full 0\n",
        ..NOTHING
    },
    Case {
        before: &[],
        clients: &[],
        printed: "closed 0 bad 0 broken 0 full 0\n",
        store: ABSENT,
        ..NOTHING
    },
    Case {
        fails: Fails {
            dialer: 1,
            disk: 1,
            ..NONE
        },
        printed: "closed 0 bad 0 broken 1 full 0\n",
        ..NOTHING
    },
    Case {
        said: "HTTP/1.1 200 OK\r\n",
        printed: "closed 0 bad 1 broken 0 full 0\n",
        ..NOTHING
    },
];

#[test]
fn a_recording_of_nothing_until_ended_leaves_the_file(rt: HostRuntime) {
    are_left(&rt, rt.alloc(), &NOTHING_RECORDED);
}

// One that isn't until ended writes the store of no records in place of the file.
static NOTHING_IN_TURN: [Case; 2] = [
    Case {
        words: WORDS,
        fails: NONE,
        clients: &[],
        printed: "closed 0 bad 0 broken 0 full 0\n",
        store: NO_RECORD,
        ..NOTHING
    },
    Case {
        words: WORDS,
        fails: Fails { dialer: 1, ..NONE },
        printed: "closed 0 bad 0 broken 1 full 0\n",
        store: NO_RECORD,
        ..NOTHING
    },
];

#[test]
fn a_recording_of_nothing_in_turn_replaces_the_file(rt: HostRuntime) {
    are_left(&rt, rt.alloc(), &NOTHING_IN_TURN);
}

// Words that have no job, in which nobody is served at a time.
static NO_JOB: [Case; 2] = [
    Case {
        words: "--port 80 --to 8080 --connections 0 --out s --until-ended",
        status: 2,
        printed: "mm: usage\n",
        store: ABSENT,
        ..DONE
    },
    Case {
        words: "--port 80 --to 8080 --connections 65 --out s --until-ended",
        status: 2,
        printed: "mm: usage\n",
        store: ABSENT,
        ..DONE
    },
];

#[test]
fn nobody_at_a_time_is_no_job(rt: HostRuntime) {
    are_left(&rt, rt.alloc(), &NO_JOB);
}

// Two clients that ask the same, and one server alone.
static TWO_CLIENTS: [Case; 2] = [
    Case {
        words: "--port 80 --to 8080 --connections 1 --out s --until-ended",
        ..TWO_IN_TURN
    },
    TWO_IN_TURN,
];

const TWO_IN_TURN: Case = Case {
    words: "--port 80 --to 8080 --connections 2 --out s",
    clients: &[(REQUEST, 0), (REQUEST, 0)],
    printed: "closed 1 bad 0 broken 1 full 0\n",
    refuses_second: true,
    ..DONE
};

#[test]
fn a_client_for_which_nothing_is_dialed_is_broken(rt: HostRuntime) {
    are_left(&rt, rt.alloc(), &TWO_CLIENTS);
}
