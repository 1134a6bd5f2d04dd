// The list of senders: the name of a schedule on each line.
ghost use Rattle.std.specs.Prelude.{◌≡◌, ◌≢◌, ◌+◌, ◌<◌, ◌≤◌, ◌∷◌, ℕ, List, length, None, Some, IfNone, IfOk, IfSome};
ghost use Rattle.std.specs.Prelude.{MatchResult, OnOk, false, map, true};
ghost use Rattle.text_base.specs.Lines.{lines_of};
ghost use Rattle.command_merge.specs.List.{is_name, line_fault, list_fault, number_of, place_of};
ghost use Rattle.command_merge.specs.declared.list.ListError.TheVariants as errors;

use std::alloc::{AllocFailed, Global};
use text_base::Lines;

// How many senders a list names at most.
const MOST_SENDERS: usize = 16;

// Why a text is no list of senders: its first refusal, line by line.
#[derive(Clone, Copy, Debug, PartialEq, Eq)]
pub(crate) enum ListError {
    // The text has no line.
    Empty,
    // Line `line`, counted from 1, is empty or isn't UTF-8.
    BadName { line: u32 },
    // There is a 17th line, whatever it holds.
    TooMany,
    // Out of memory; the text wasn't refused.
    OutOfMemory,
}

impl ListError {
    // Returns the number of the refusal: 1 to 3, in the order of the variants, or 0 for out of memory.
    pub fn number(self) -> u32
        ensures { result ≡ number_of self }
    {
        match self {
            ListError::Empty => 1,
            ListError::BadName { .. } => 2,
            ListError::TooMany => 3,
            ListError::OutOfMemory => 0,
        }
    }

    // Returns the line that the refusal names, or 0 if it names none.
    pub fn line(self) -> u64
        ensures { result ≡ place_of self }
    {
        match self {
            ListError::BadName { line } => u64::from(line),
            ListError::Empty | ListError::TooMany | ListError::OutOfMemory => 0,
        }
    }
}

// Returns the name on a line, or `None` if the line isn't a name.
fn name_on(line: &[u8]) -> Option<&str>
    ensures some { IfSome result (λ name. (name.now ≡ line.now) × (is_name line.now ≡ true)) }
    ensures none { IfNone result (is_name line.now ≡ false) }
{
    if line.is_empty() {
        return None;
    }
    std::str::from_utf8(line).ok()
}

// Returns the name on line `count + 1`; the `count` lines before it have names.
fn next_name(count: usize, line: &[u8]) -> Result<&str, ListError>
    requires { count ≤ 16 }
    ensures few { OnOk result (count < 16) }
    ensures name { IfOk result (λ name. name.now ≡ line.now) }
    ensures fault { (rest : List (List ℕ)) → MatchResult result
        (λ _. line_fault (count + 1) (line.now ∷ rest) ≡ line_fault (count + 2) rest)
        (λ e. line_fault (count + 1) (line.now ∷ rest) ≡ Some e) }
{
    if count >= MOST_SENDERS {
        return Err(ListError::TooMany);
    }
    let number = count as u32 + 1;
    name_on(line).ok_or(ListError::BadName { line: number })
}

// Returns the names on the lines of a text.
pub(crate) fn read_list(alloc: Global, text: &[u8]) -> Result<Vec<&str>, ListError>
    ensures some { IfOk result (λ names. 1 ≤ length names.items) }
    ensures few { IfOk result (λ names. length names.items ≤ 16) }
    ensures names { IfOk result (λ names. map (λ name. name.now) names.items ≡ lines_of text.now) }
    ensures exact { MatchResult result (λ _. list_fault text.now ≡ None)
        (λ e. e ≢ ListError.OutOfMemory → list_fault text.now ≡ Some e) }
{
    let mut names = Vec::new(alloc);
    for line in Lines::new(text) {
        let name = next_name(names.len(), line)?;
        names.push(name)?;
    }
    if names.is_empty() {
        return Err(ListError::Empty);
    }
    Ok(names)
}

impl<T: Drop> From<AllocFailed<T>> for ListError {
    ghost from_gives = { λ _ e. e ≡ errors.OutOfMemory };

    fn from(_: AllocFailed<T>) -> Self {
        ListError::OutOfMemory
    }
}
