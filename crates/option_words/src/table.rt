// A command's table of options, as clap reads it.
ghost use Rattle.std.specs.Prelude.{◌≡◌, IfOk, map, string_bytes, true, false, if◌then◌else◌};
ghost use Rattle.std.specs.List.{list_all};
ghost use Rattle.option_words.specs.inside.Options.{is_fit};
ghost use Rattle.option_words.specs.inside.Found.{IsMatchOf};
ghost use Rattle.option_words.specs.Values.{opt};
ghost use Rattle.option_words.specs.inside.ClapTable.{app_for, rule_for};
ghost use Rattle.clap.specs.Words.{app_of, rule_of};

use crate::options::OptionSpec;
use clap::error::ErrorKind;
use clap::{Arg, ArgAction, ArgMatches, Command};
use std::alloc::{AllocError, Global};

fn action_for(takes_value: bool) -> ArgAction
    ensures { result ≡ (if takes_value then ArgAction.Set else ArgAction.SetTrue) }
{
    if takes_value {
        ArgAction::Set
    } else {
        ArgAction::SetTrue
    }
}

fn arg_for<'a>(alloc: Global, option: OptionSpec) -> Arg<'a>
    ensures rule { rule_of result ≡ rule_for (opt option) }
    ensures local { result.global ≡ false }
{
    Arg::new(alloc, option.name)
        .long(option.name)
        .action(action_for(option.takes_value()))
}

fn command_for<'a>(alloc: Global, table: &[OptionSpec]) -> Result<Command<'a>, AllocError>
    ensures { IfOk result (λ c. app_of c ≡ app_for (map opt table.now)) }
{
    let mut command = Command::new(alloc, "mm")
        .no_binary_name(true)
        .disable_help_flag(true);
    for option in table {
        command = command.arg(arg_for(alloc, *option))?;
    }
    Ok(command)
}

// What clap makes of the words, or none if they spell no uses of these options.
pub(crate) fn matches_for<'a>(
    alloc: Global,
    table: &[OptionSpec],
    words: &'a [String],
) -> Result<Option<ArgMatches<'a>>, AllocError>
    requires { list_all is_fit (map string_bytes words.now) ≡ true }
    ensures { IfOk result (IsMatchOf (map opt table.now) (map string_bytes words.now)) }
{
    let command = command_for(alloc, table)?;
    match command.try_get_matches_from(words) {
        Ok(matches) => Ok(Some(matches)),
        Err(error) => match error.kind() {
            ErrorKind::OutOfMemory => Err(AllocError),
            _ => Ok(None),
        },
    }
}
