// How a log is read from its whole text.
ghost use Rattle.std.specs.Prelude.{◌≡◌, ◌≢◌, List, Some, None, MatchResult, IfOk};
ghost use Rattle.shell_log.specs.declared.reading.LogError.TheVariants as errors;
ghost use Rattle.shell_log.specs.declared.entry.Entry.{Entry as EntryValue};
ghost use Rattle.shell_log.specs.Entries.{IsLog};
ghost use Rattle.shell_log.specs.LogText.{log_text};
ghost use Rattle.shell_log.specs.Reading.{log_fault};

use crate::{Log, LogParser};
use std::alloc::Global;
use text_base::OutOfMemory;

/// Why a text isn't the text of a log. The first refusal wins; lines are counted from 1.
#[derive(Clone, Copy, Debug, PartialEq, Eq)]
pub enum LogError {
    /// The first line isn't `# base timestamp: 0` with its line feed.
    BadHeader,
    /// The line is of another form, has a number out of range or a leading zero, or lacks its line feed.
    BadLine { line: u64 },
    /// The moment is below that of the line before.
    Backwards { line: u64 },
    /// Memory ran out. The text wasn't refused.
    OutOfMemory,
}

impl LogError {
    ghost use Rattle.shell_log.specs.Reading.{number_of, line_named};

    /// The number of the refusal, 1 to 3 in the order of the variants, or 0 for out of memory.
    pub fn number(self) -> u32
        ensures { result ≡ number_of self }
    {
        match self {
            LogError::BadHeader => 1,
            LogError::BadLine { .. } => 2,
            LogError::Backwards { .. } => 3,
            LogError::OutOfMemory => 0,
        }
    }

    /// The line that the refusal names, or 0 if it names none.
    pub fn line(self) -> u64
        ensures { result ≡ line_named self }
    {
        match self {
            LogError::BadLine { line } | LogError::Backwards { line } => line,
            LogError::BadHeader | LogError::OutOfMemory => 0,
        }
    }
}

impl From<OutOfMemory> for LogError {
    ghost from_gives = { λ _ e. e ≡ errors.OutOfMemory };

    fn from(_: OutOfMemory) -> Self {
        LogError::OutOfMemory
    }
}

/// The log of which `text` is the text. Returns the first refusal of its lines, or `OutOfMemory` if memory runs out.
pub fn read_log(alloc: Global, text: &[u8]) -> Result<Log, LogError>
    ensures found { IfOk result (λ log. text.now ≡ log_text log.entries) }
    ensures every { (list : List EntryValue) → IsLog list → text.now ≡ log_text list
        → MatchResult result (λ log. log.entries ≡ list) (λ e. e ≡ LogError.OutOfMemory) }
    ensures exact { MatchResult result (λ _. log_fault text.now ≡ None)
        (λ e. e ≢ LogError.OutOfMemory → log_fault text.now ≡ Some e) }
{
    read_text(alloc, text)
}

fn read_text(alloc: Global, text: &[u8]) -> Result<Log, LogError>
    ensures found { IfOk result (λ log. text.now ≡ log_text log.entries) }
    ensures log { IfOk result (λ log. IsLog log.entries) }
    ensures exact { MatchResult result (λ _. log_fault text.now ≡ None)
        (λ e. e ≢ LogError.OutOfMemory → log_fault text.now ≡ Some e) }
{
    let mut log = Log::new(alloc);
    log.reserve(most_entries(text))?;
    let mut reader = LogParser::new(alloc);
    let mut rest = text;
    'entries: while let Some((entry, after)) = reader.next(rest) {
        log.reserve(1)?;
        log.add(entry);
        rest = after;
    }
    reader.finish()?;
    Ok(log)
}

// How many entries the text can have: each has a line feed, and the shortest line has six bytes with it.
fn most_entries(text: &[u8]) -> usize {
    let line_feeds = text.iter().filter(|byte| **byte == b'\n').count();
    line_feeds.min(text.len() / 6)
}
