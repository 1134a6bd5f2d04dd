// What words give of each option of a table.
ghost use Rattle.std.specs.Prelude.{◌≡◌, IfOk, List, option_map, map, string_bytes, true};
ghost use Rattle.option_words.specs.Options.{Use};
ghost use Rattle.option_words.specs.Commands.{table_of};
ghost use Rattle.option_words.specs.Givens.{given, givens};
ghost use Rattle.option_words.specs.inside.Givens.{differ};
ghost use Rattle.option_words.specs.inside.Held.{HoldsUses};
ghost use Rattle.option_words.specs.Values.{opt};

use crate::command::Command;
use crate::fit::all_fit;
use crate::options::OptionSpec;
use crate::table::matches_for;
use clap::ArgMatches;
use std::alloc::{AllocError, Global};

// The value of an option, the empty text for a flag that stands among the words, or nothing.
fn given_of<'a>(matches: &ArgMatches<'a>, option: OptionSpec) -> Option<&'a str>
    ensures { (us : List Use) → HoldsUses matches.now us (opt option) → option_map
        (λ s. s.now) result ≡ given us (opt option) }
{
    if option.takes_value() {
        return matches.get_str(option.name);
    }
    matches.get_flag(option.name).then_some("")
}

// Returns what the words give of each option, in the table's order, or `None` if they aren't options of the table, each
// at most once.
fn read_table<'a>(
    alloc: Global,
    table: &[OptionSpec],
    words: &'a [String],
) -> Result<Option<Vec<Option<&'a str>>>, AllocError>
    requires { differ (map opt table.now) ≡ true }
    ensures { IfOk result (λ r. option_map (λ v. map (λ o. option_map
        (λ s. s.now) o) v.items) r ≡ givens (map opt table.now) (map string_bytes words.now)) }
{
    if !all_fit(words) {
        return Ok(None);
    }
    let Some(matches) = matches_for(alloc, table, words)? else {
        return Ok(None);
    };
    let mut texts = Vec::with_capacity(alloc, table.len())?;
    for option in table {
        texts.push(given_of(&matches, *option))?;
    }
    Ok(Some(texts))
}

/// Returns what the words give of each option of a command, in the order of its table: the value, or the empty text for
/// a flag. `None` comes if the words aren't options of the command, each at most once. `AllocError` means out of memory.
pub fn read_given<'a>(
    alloc: Global,
    command: Command,
    words: &'a [String],
) -> Result<Option<Vec<Option<&'a str>>>, AllocError>
    ensures { IfOk result (λ r. option_map (λ v. map (λ o. option_map
        (λ s. s.now) o) v.items) r ≡ givens (table_of command) (map string_bytes words.now)) }
{
    read_table(alloc, command.options(), words)
}
