// What commands that run a nest check: its words, the names of outputs, the horizon and the traces.
ghost use Rattle.std.specs.Prelude.{◌≡◌, ◌≢◌, ◌⊎◌, ◌≤◌, ◌∷◌, ◌++◌, [], None, IfErr, IfOk, MatchResult, OnOk, length};
ghost use Rattle.std.specs.Prelude.{map, option_map, string_bytes};
ghost use Rattle.command_ends.specs.Names.{refused_names};
ghost use Rattle.command_ends.specs.Stops.{RefusesText};
ghost use Rattle.command_ends.specs.declared.cause.Cause.TheVariants as causes;
ghost use Rattle.nest_spec.specs.Nests.{opportunities_of};
ghost use Rattle.nest_command.specs.NestReading.{IsPlan, StopsPlan, nest_refusal, refused_count, refused_horizon};
ghost use Rattle.nest_command.specs.NestReading.{packet_outputs, refused_outputs};

use command_ends::{Cause, Limit, Refusal, WordsRefusal, first_taken};
use nest_spec::{NestError, NestWords, read_nest};
use std::alloc::Global;
use text_base::limits::{HOUR, MOST_OPPORTUNITIES};
use text_base::{OutOfMemory, Text};
use trace_reader::Trace;

// Returns the cause of words that name no nest: the refusal with the number, the place and the inner number of
// `error`, or `OutOfMemory`.
fn nest_cause(error: NestError) -> Cause
    ensures { (result ≡ causes.OutOfMemory)
        ⊎ ((error ≢ NestError.OutOfMemory) × (result ≡ causes.Refused (nest_refusal error))) }
{
    match error {
        NestError::OutOfMemory => Cause::OutOfMemory,
        _ => Cause::Refused(Refusal::Words(WordsRefusal::Nest {
            number: error.number(),
            place: u64::from(error.place()),
            inner: error.inner(),
        })),
    }
}

/// Returns the names in `first`, and then those in `others`. Returns `OutOfMemory` if an allocation fails.
pub fn names_of<'a>(
    alloc: Global,
    first: &'a [Text],
    others: &[&'a str],
) -> Result<Vec<&'a str>, OutOfMemory>
    ensures { IfOk result (λ names. map (λ name. name.now) names.items ≡ first.now ++ map
        (λ name. name.now) others.now) }
{
    let mut names = Vec::with_capacity(alloc, first.len())?;
    for name in first {
        names.push(name.as_str())?;
    }
    for name in others {
        names.push(*name)?;
    }
    Ok(names)
}

/// Refuses the first output that has the name of an input, or of an output before it. Returns `OutOfMemory` if
/// memory for the refusal runs out.
pub fn check_outputs(alloc: Global, inputs: &[&str], outputs: &[&str]) -> Result<(), Cause>
    ensures { MatchResult result
        (λ _. refused_names (map (λ name. name.now) inputs.now) (map (λ name. name.now) outputs.now) ≡ None)
        (λ cause. RefusesText
        (refused_names (map (λ name. name.now) inputs.now) (map (λ name. name.now) outputs.now)) cause) }
{
    match first_taken(inputs, outputs) {
        Some(name) => Err(Cause::taken(Text::from_text(alloc, name)?)),
        None => Ok(()),
    }
}

// Refuses a horizon past an hour, 3,600,000 milliseconds.
fn check_horizon(horizon: u64) -> Result<(), Cause>
    ensures refused { MatchResult result (λ _. refused_horizon horizon ≡ None)
        (λ cause. RefusesText (refused_horizon horizon) cause) }
    ensures small { OnOk result (horizon ≤ 3600000) }
{
    if horizon > HOUR {
        return Err(Cause::limit(Limit::Horizon));
    }
    Ok(())
}

/// Returns the names of the outputs after the logs: of the table, if there is one, and of the fates. Returns
/// `OutOfMemory` if an allocation fails.
pub fn packet_outputs<'a>(
    alloc: Global,
    table: Option<&'a str>,
    out: &'a str,
) -> Result<Vec<&'a str>, OutOfMemory>
    ensures { IfOk result (λ names. map (λ name. name.now) names.items
        ≡ packet_outputs (option_map (λ s. s.now) table.entry) out.now) }
{
    let mut names = Vec::with_capacity(alloc, 2)?;
    if let Some(table) = table {
        names.push(table)?;
    }
    names.push(out)?;
    Ok(names)
}

// Refuses the first output that has the name of an input, or of an output before it.
fn check_names(alloc: Global, nest: &NestWords, inputs: &[&str], outs: &[&str]) -> Result<(), Cause>
    ensures { let names = map (λ name. name.now) outs.now in MatchResult result
        (λ _. refused_outputs (map (λ name. name.now) inputs.now) names nest.now ≡ None)
        (λ cause. RefusesText (refused_outputs (map (λ name. name.now) inputs.now) names nest.now) cause) }
{
    let inputs = names_of(alloc, nest.traces(), inputs)?;
    let outputs = names_of(alloc, nest.logs(), outs)?;
    check_outputs(alloc, inputs.as_slice(), outputs.as_slice())
}

/// Returns the plan of a nest, which these words of shells name. Refuses words that name no nest, then the first output
/// that has the name of an input or of an output before it, then a horizon past an hour. The inputs are the traces and
/// those of the names `inputs`; the outputs are the logs and then `outs`.
pub fn read_plan(
    alloc: Global,
    shells: &[String],
    inputs: &[&str],
    outs: &[&str],
    horizon: u64,
) -> Result<NestWords, Cause>
    ensures plan { let names = map (λ name. name.now) outs.now in MatchResult result
        (λ nest. IsPlan (map string_bytes shells.now) (map (λ name. name.now) inputs.now) names horizon nest)
        (λ cause. StopsPlan (map string_bytes shells.now) (map (λ name. name.now) inputs.now) names horizon cause) }
    ensures small { OnOk result (horizon ≤ 3600000) }
{
    let nest = match read_nest(alloc, shells) {
        Ok(nest) => nest,
        Err(error) => return Err(nest_cause(error)),
    };
    check_names(alloc, &nest, inputs, outs)?;
    check_horizon(horizon)?;
    Ok(nest)
}

/// Refuses traces with more than 16,000,000 opportunities up to the horizon, in both directions together.
pub fn check_count(horizon: u64, words: &NestWords, traces: &[Trace]) -> Result<(), Cause>
    requires hour { horizon ≤ 3600000 }
    requires count { length traces.now ≡ length words.now.traces }
    ensures few { OnOk result (opportunities_of horizon words.now.shells traces.now ≤ 16000000) }
    ensures refused { IfErr result (λ cause. RefusesText (refused_count horizon words.now.shells traces.now) cause) }
{
    if words.opportunities(traces, horizon) > MOST_OPPORTUNITIES {
        return Err(Cause::limit(Limit::Opportunities));
    }
    Ok(())
}
