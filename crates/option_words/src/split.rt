// Words that have options and then, after the first `--`, shells.
ghost use Rattle.std.specs.Prelude.{◌≡◌, ◌<◌, IfOk, IfSome, length, map, option_map, position, string_bytes};
ghost use Rattle.option_words.specs.Commands.{table_of};
ghost use Rattle.option_words.specs.Shells.{ends_options, split_words};
ghost use Rattle.option_words.specs.Values.{split_of};

use crate::command::Command;
use crate::given::read_given;
use std::alloc::{AllocError, Global};

/// What is given of each option of a command, in the order of its table, and the words of the shells.
#[derive(Drop)]
pub struct SplitWords<'a> {
    pub given: Vec<Option<&'a str>>,
    pub shells: &'a [String],
}

/// Returns the place of the first `--`, which ends the options, if there is one.
pub fn end_of_options(words: &[String]) -> Option<usize>
    ensures place { result ≡ position (λ word. ends_options (string_bytes word)) words.now }
    ensures within { IfSome result (λ place. place < length words.now) }
{
    words.iter().position(|word| word.as_str() == "--")
}

/// Returns what the words before the first `--` give of each option of a command, and the words of the shells after it.
/// `None` comes if there is no `--`, or the words before it aren't options of the command, each at most once.
/// `AllocError` means out of memory.
#[tactic(auto, unfolding(crate::specs::Shells::split_words))]
pub fn read_split<'a>(
    alloc: Global,
    command: Command,
    words: &'a [String],
) -> Result<Option<SplitWords<'a>>, AllocError>
    ensures { IfOk result (λ r. option_map split_of r ≡ split_words (table_of command) (map string_bytes words.now)) }
{
    let Some(end) = end_of_options(words) else {
        return Ok(None);
    };
    let shells = &words[end + 1..];
    match read_given(alloc, command, &words[..end])? {
        Some(given) => Ok(Some(SplitWords { given, shells })),
        None => Ok(None),
    }
}
