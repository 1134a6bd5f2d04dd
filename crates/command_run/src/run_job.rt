// What `run` is asked for by its words.
ghost use Rattle.std.specs.Prelude.{◌≡◌, IfOk, map, string_bytes};
ghost use Rattle.std.specs.Option.{option_map};
ghost use Rattle.std.specs.Result.{result_ok};
ghost use Rattle.command_run.specs.Run.{run_from, run_of};
ghost use Rattle.command_run.specs.inside.Values.{run_values};

use option_words::{Command, WordFault, job_or_fault, read_seed, read_split};
use std::alloc::{AllocError, Global};
use text_base::read_decimal;

// The job of a run: the horizon in milliseconds, the names of the files, with those of the table and of the order if
// there is one, the seed, whether packets pass shell by shell (`plain`), and the words of the shells.
#[derive(Drop)]
pub(crate) struct RunJob<'a> {
    pub horizon: u64,
    pub schedule: &'a str,
    pub out: &'a str,
    pub table: Option<&'a str>,
    pub seed: u64,
    pub plain: bool,
    pub order: Option<&'a str>,
    pub shells: &'a [String],
}

// Returns the job of what is given of each option, and of the words of the shells. `--plain` and `--order` exclude each
// other.
#[tactic(auto, unfolding(crate::specs::Run::run_from))]
fn run_job<'a>(given: &[Option<&'a str>], shells: &'a [String]) -> Option<RunJob<'a>>
    ensures { option_map run_values result ≡ run_from (map (λ o. option_map (λ s. s.now) o) given.now)
        (map string_bytes shells.now) }
{
    let [until, schedule, out, table, seed, plain, order] = given else {
        return None;
    };
    if plain.is_some() && order.is_some() {
        return None;
    }
    let horizon = read_decimal((*until)?.as_bytes())?;
    let seed = read_seed(*seed)?;
    Some(RunJob {
        horizon,
        schedule: (*schedule)?,
        out: (*out)?,
        table: *table,
        seed,
        plain: plain.is_some(),
        order: *order,
        shells,
    })
}

// Returns the job of `words`, or `None` if they have none.
fn find_run<'a>(alloc: Global, words: &'a [String]) -> Result<Option<RunJob<'a>>, AllocError>
    ensures { IfOk result (λ found. option_map run_values found ≡ run_of (map string_bytes words.now)) }
{
    match read_split(alloc, Command::Run, words)? {
        Some(split) => Ok(run_job(&split.given, split.shells)),
        None => Ok(None),
    }
}

// Returns the job of `words`, the words after the command's name, or their first fault.
pub(crate) fn read_run<'a>(
    alloc: Global,
    words: &'a [String],
) -> Result<Result<RunJob<'a>, WordFault>, AllocError>
    ensures { IfOk result (λ read. option_map run_values (result_ok read) ≡ run_of (map string_bytes words.now)) }
{
    let found = find_run(alloc, words)?;
    Ok(job_or_fault(found, Command::Run, words))
}
