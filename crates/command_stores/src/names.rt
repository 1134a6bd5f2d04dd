// Names of files: that of an output must be none of the inputs'.
ghost use Rattle.std.specs.Prelude.{◌≡◌, ◌∷◌, [], None, MatchResult, map};
ghost use Rattle.command_ends.specs.Names.{refused_names};
ghost use Rattle.command_ends.specs.Stops.{RefusesText};

use command_ends::{Cause, first_taken};
use std::alloc::Global;
use text_base::Text;

/// Refuses an output that has the name of an input.
pub(crate) fn check_names(alloc: Global, inputs: &[&str], out: &str) -> Result<(), Cause>
    ensures { MatchResult result (λ _. refused_names (map (λ name. name.now) inputs.now) (out.now ∷ []) ≡ None)
        (λ cause. RefusesText (refused_names (map (λ name. name.now) inputs.now) (out.now ∷ [])) cause) }
{
    match first_taken(inputs, &[out]) {
        Some(name) => Err(Cause::taken(Text::from_text(alloc, name)?)),
        None => Ok(()),
    }
}
