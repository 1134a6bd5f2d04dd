// What `merge` is asked for by its words.
ghost use Rattle.std.specs.Prelude.{◌≡◌, IfOk, map, string_bytes};
ghost use Rattle.std.specs.Option.{option_map};
ghost use Rattle.std.specs.Result.{result_ok};
ghost use Rattle.command_merge.specs.Merge.{merge_from, merge_of};
ghost use Rattle.command_merge.specs.inside.Values.{merge_values};

use option_words::{Command, WordFault, job_or_fault, read_seed, read_split};
use std::alloc::{AllocError, Global};
use text_base::read_decimal;

// The job of a merge: the horizon in milliseconds, the names of the list of senders and of the files of the fates and of
// the table, if there is one, the seed, and the words of the shells.
#[derive(Drop)]
pub(crate) struct MergeJob<'a> {
    pub horizon: u64,
    pub senders: &'a str,
    pub out: &'a str,
    pub table: Option<&'a str>,
    pub seed: u64,
    pub shells: &'a [String],
}

// Returns the job of what is given of each option, and of the words of the shells.
#[tactic(auto, unfolding(crate::specs::Merge::merge_from))]
fn merge_job<'a>(given: &[Option<&'a str>], shells: &'a [String]) -> Option<MergeJob<'a>>
    ensures { option_map merge_values result ≡ merge_from (map (λ o. option_map (λ s. s.now) o) given.now)
        (map string_bytes shells.now) }
{
    let [until, senders, out, table, seed] = given else {
        return None;
    };
    let horizon = read_decimal((*until)?.as_bytes())?;
    let seed = read_seed(*seed)?;
    Some(MergeJob {
        horizon,
        senders: (*senders)?,
        out: (*out)?,
        table: *table,
        seed,
        shells,
    })
}

// Returns the job of `words`, or `None` if they have none.
fn find_merge<'a>(alloc: Global, words: &'a [String]) -> Result<Option<MergeJob<'a>>, AllocError>
    ensures { IfOk result (λ found. option_map merge_values found ≡ merge_of (map string_bytes words.now)) }
{
    match read_split(alloc, Command::Merge, words)? {
        Some(split) => Ok(merge_job(&split.given, split.shells)),
        None => Ok(None),
    }
}

// Returns the job of `words`, the words after the command's name, or their first fault.
pub(crate) fn read_merge<'a>(
    alloc: Global,
    words: &'a [String],
) -> Result<Result<MergeJob<'a>, WordFault>, AllocError>
    ensures { IfOk result (λ read. option_map merge_values (result_ok read) ≡ merge_of (map string_bytes words.now)) }
{
    let found = find_merge(alloc, words)?;
    Ok(job_or_fault(found, Command::Merge, words))
}
