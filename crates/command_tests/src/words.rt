// Words that spell the options of a run, and words that don't.
use option_words::{Command, read_given};
use std::alloc::{AllocError, Global};
use test_outside::words_of;
use text_base::OutOfMemory;

// Whether these are the values that the options of each run give.
fn are_given(given: &[Option<&str>]) -> bool {
    matches!(given, [Some("100"), Some("s"), Some("f"), ..])
}

// Whether words are the options of a run, with those values, where they should be, and aren't where they shouldn't.
fn is_read_so(alloc: Global, words: &[String], is_read: bool) -> Result<bool, AllocError> {
    match read_given(alloc, Command::Run, words)? {
        Some(given) => Ok(is_read && are_given(&given)),
        None => Ok(!is_read),
    }
}

// Words, and whether they are the options of a run.
type Row = (&'static str, bool);

// Whether a row holds.
fn holds(alloc: Global, row: &Row) -> Result<bool, OutOfMemory> {
    let words = words_of(alloc, row.0)?;
    Ok(is_read_so(alloc, &words, row.1)?)
}

// That two options exclude each other is no matter of their spelling.
static LINES: [Row; 5] = [
    ("--until 100 --schedule s --out f --plain", true),
    ("--plain --out=f --schedule=s --until=100 --seed=7", true),
    ("--out f --schedule s --until 100 --order o", true),
    ("--out f --schedule s --until 100 --plain --order o", true),
    ("--until 100 --schedule s --out f --", false),
];

#[test]
fn options_are_read(rt: HostRuntime) {
    for row in &LINES {
        assert!(rt;
            holds(rt.alloc(), row).expect(&rt, "memory"),
            "at {}",
            row.0
        );
    }
}
