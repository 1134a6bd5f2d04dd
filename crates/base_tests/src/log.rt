// Tests of logs that are read and printed.
use shell_log::{Entry, Log, LogError, LogParser, print_log, read_log};
use std::alloc::Global;
use std::process::Abort;
use text_base::OutOfMemory;

fn is_shared<T: Send + Sync>(_: &T) {}

// Returns whether the text of a log is `said`.
fn prints(alloc: Global, log: &Log, said: &[u8]) -> Result<bool, OutOfMemory> {
    let text = print_log(alloc, log)?;
    Ok(text.as_slice() == said)
}

const FOUR_ENTRIES: &[u8] = b"# base timestamp: 0\n0 + 1504\n1 # 3000\n1 - 1504 1\n2 d 1 250\n";

// Returns whether a text of four entries is read and printed again.
fn is_printed_again(alloc: Global) -> Result<bool, LogError> {
    let log = read_log(alloc, FOUR_ENTRIES)?;
    is_shared(&log);
    Ok(log.entries().len() == 4 && prints(alloc, &log, FOUR_ENTRIES)?)
}

// Returns a log of one entry.
fn log_of_one(alloc: Global) -> Result<Log, OutOfMemory> {
    let mut log = Log::new(alloc);
    log.reserve(1)?;
    log.add(Entry::Opportunity {
        moment: 5,
        bytes: 1504,
    });
    Ok(log)
}

// Returns whether a log of one entry is printed.
fn one_is_printed(alloc: Global) -> Result<bool, OutOfMemory> {
    let log = log_of_one(alloc)?;
    prints(alloc, &log, b"# base timestamp: 0\n5 # 1504\n")
}

#[test]
fn a_log_is_printed_and_read(rt: HostRuntime) {
    assert!(rt; is_printed_again(rt.alloc()).expect(&rt, "a log"));
    assert!(rt; one_is_printed(rt.alloc()).expect(&rt, "memory"));
}

// Returns how many entries the reader returns of a piece.
fn count_entries(reader: &mut LogParser, piece: &[u8]) -> u64 {
    let mut count = 0u64;
    let mut rest = piece;
    'entries: while let Some((_, after)) = reader.next(rest) {
        count = count.saturating_add(1);
        rest = after;
    }
    count
}

// Reads a text in pieces of `size` bytes. Returns how many entries the reader returned, and its refusal.
fn refusal_in_pieces(alloc: Global, text: &[u8], size: usize) -> (u64, Option<LogError>) {
    let mut reader = LogParser::new(alloc);
    let mut count = 0u64;
    for piece in text.chunks(size.max(1)) {
        count = count.saturating_add(count_entries(&mut reader, piece));
    }
    (count, reader.finish().err())
}

// Texts, how many entries the reader returns of each, and how each is refused.
static PIECES: [(&[u8], u64, Option<LogError>); 4] = [
    (
        b"# base timestamp: 0\n0 + 1\n9999999999 d 9999999999 9999999999\n",
        2,
        None,
    ),
    (
        b"# base timestamp: 0\n5 + 100\n4 # 1504\n9 + 1\n",
        1,
        Some(LogError::Backwards { line: 3 }),
    ),
    (
        b"# base timestamp: 0\n5 + 100\n6 + 00000000000000000000000000000000000001",
        1,
        Some(LogError::BadLine { line: 3 }),
    ),
    (
        b"# base timestamp: 00000000000000000000000",
        0,
        Some(LogError::BadHeader),
    ),
];

static SIZES: [usize; 4] = [1, 2, 7, 64];

// Checks that a text is read as `said` in pieces of all sizes, and refused so as a whole.
fn is_read_in_any_pieces(
    rt: &impl Abort,
    alloc: Global,
    text: &[u8],
    said: (u64, Option<LogError>),
) {
    assert!(rt; read_log(alloc, text).err() == said.1);
    for &size in &SIZES {
        assert!(rt; refusal_in_pieces(alloc, text, size) == said);
    }
}

#[test]
fn a_text_is_read_in_any_pieces(rt: HostRuntime) {
    for &(text, entries, refused) in &PIECES {
        is_read_in_any_pieces(&rt, rt.alloc(), text, (entries, refused));
    }
}
