// Tests of reports of whole logs, and of their texts in pieces.
use log_report::{EMPTY, ReportBuilder, ReportError, print_report, report};
use shell_log::{Log, LogError, read_log};
use std::alloc::Global;
use text_base::{Bytes, OutOfMemory, PieceReader};

const QUEUED: &[u8] =
    b"# base timestamp: 0\n0 + 1000\n0 + 1000\n1 # 1504\n1 - 1000 1\n1 + 800\n1 + 800\n1 + 700\n1 d 1 800\n\
2 # 1504\n2 - 1000 2\n2 - 800 1\n3 # 1504\n3 - 700 2\n";

const STATED: &[u8] =
    b"# base timestamp: 0\n0 + 1504\n0 + 1504\n1 # 500\n2 # 3000\n2 - 1504 2\n2 - 1504 2\n3 # 500\n4 # 3000\n";

// Moments of ten digits, and delays above those that are counted by value.
const LATE: &[u8] =
    b"# base timestamp: 0\n65535 - 10 65535\n65536 - 10 65536\n9999999999 - 10 9999999999\n";

// The texts of logs, and what is printed of each.
const TEXTS: [(&[u8], &[u8]); 5] = [
    (
        QUEUED,
        b"entries 13\nspan 0 3\narrived 5 4300\noffered 3 4512\ndeparted 4 3500\ndropped 1 800\n\
used 775\ndelay 1 2 2\n",
    ),
    (
        STATED,
        b"entries 8\nspan 0 4\narrived 2 3008\noffered 4 7000\ndeparted 2 3008\ndropped 0 0\nused 429\ndelay 2 2 2\n",
    ),
    (
        LATE,
        b"entries 3\nspan 65535 9999999999\narrived 0 0\noffered 0 0\ndeparted 3 30\ndropped 0 0\nused none\n\
delay 65536 9999999999 9999999999\n",
    ),
    (
        b"# base timestamp: 0\n7 # 1504\n8 d 9999999999 9999999999\n8 d 9999999999 9999999999\n",
        b"entries 3\nspan 7 8\narrived 0 0\noffered 1 1504\ndeparted 0 0\ndropped 19999999998 19999999998\n\
used 0\ndelay none\n",
    ),
    (b"# base timestamp: 0\n", EMPTY),
];

// Returns what is printed of the text that was read.
fn finished(alloc: Global, reader: ReportBuilder) -> Result<Bytes, LogError> {
    Ok(match reader.finish()? {
        Some(report) => print_report(alloc, &report)?,
        None => Bytes::from_slice(alloc, EMPTY)?,
    })
}

// Returns what is printed of a text that is read in pieces of `size` bytes.
fn printed(alloc: Global, text: &[u8], size: usize) -> Result<Bytes, LogError> {
    let mut reader = ReportBuilder::new(alloc)?;
    for piece in text.chunks(size.max(1)) {
        reader.push(piece);
    }
    finished(alloc, reader)
}

// Returns what is printed of a log.
fn printed_whole(alloc: Global, log: &Log) -> Result<Bytes, OutOfMemory> {
    if log.entries().len() > 1000 {
        return Err(OutOfMemory);
    }
    match report(alloc, log) {
        Ok(report) => print_report(alloc, &report),
        Err(ReportError::Empty) => Bytes::from_slice(alloc, EMPTY),
        Err(ReportError::OutOfMemory) => Err(OutOfMemory),
    }
}

static SIZES: [usize; 3] = [1, 7, 65536];

// Returns whether `said` is printed of a text that is read in pieces of `size` bytes.
fn prints(alloc: Global, text: &[u8], size: usize, said: &[u8]) -> Result<bool, LogError> {
    let report = printed(alloc, text, size)?;
    Ok(report.as_slice() == said)
}

// Returns whether `said` is printed of a text that is read in pieces of any size.
fn prints_in_pieces(alloc: Global, text: &[u8], said: &[u8]) -> Result<bool, LogError> {
    for &size in &SIZES {
        if !prints(alloc, text, size, said)? {
            return Ok(false);
        }
    }
    Ok(true)
}

// Returns whether `said` is printed of the log of a text.
fn prints_whole(alloc: Global, text: &[u8], said: &[u8]) -> Result<bool, LogError> {
    let log = read_log(alloc, text)?;
    let report = printed_whole(alloc, &log)?;
    Ok(report.as_slice() == said)
}

#[test]
fn a_log_has_its_report(rt: HostRuntime) {
    for &(text, said) in &TEXTS {
        assert!(rt; prints_in_pieces(rt.alloc(), text, said).expect(&rt, "a report"));
        assert!(rt; prints_whole(rt.alloc(), text, said).expect(&rt, "a report"));
    }
}
