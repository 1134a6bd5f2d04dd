// Carries out the command `make`: reads its words, and prints the summary of a run.
ghost use Rattle.std.specs.Prelude.{◌≡◌, IfOk, map, string_bytes};
ghost use Rattle.std.specs.Option.{option_map};
ghost use Rattle.std.specs.Result.{result_ok};
ghost use Rattle.mm_base.specs.Disk.{DiskView};
ghost use Rattle.mm_base.specs.Sink.{CountsSinkFaults};
ghost use Rattle.command_ends.specs.Answers.{cause_in};
ghost use Rattle.command_ends.specs.Ends.{Ends, offline};
ghost use Rattle.command_ends.specs.Works.{only};
ghost use Rattle.command_report.specs.Make.{GivesMake, make_job_of, make_from, make_reading, make_words};
ghost use Rattle.command_report.specs.inside.Values.{make_values};

use crate::make_job::MakeJob;
use crate::run::make_summary;
use command_ends::{Cause, print};
use mm_base::Sink;
use option_words::{Command, WordFault, job_or_fault, read_given, read_within};
use std::alloc::{AllocError, Global};
use text_base::read_decimal;

// Returns the job of what is given of each option. The numbers are decimals, and there are 1 to 1,000,000 packets.
#[tactic(auto, unfolding(crate::specs::Make::make_from))]
fn make_job(given: &[Option<&str>]) -> Option<MakeJob>
    ensures { option_map make_values result ≡ make_from (map (λ o. option_map (λ s. s.now) o) given.now) }
{
    let [number, packets] = given else {
        return None;
    };
    let number = read_decimal((*number)?.as_bytes())?;
    let packets = read_within((*packets)?, 1, 1_000_000)?;
    Some(MakeJob {
        number,
        packets: packets as u32,
    })
}

// Returns the job of `words`, or `None` if they have none.
fn find_make(alloc: Global, words: &[String]) -> Result<Option<MakeJob>, AllocError>
    ensures { IfOk result (λ found. option_map make_values found ≡ make_job_of (map string_bytes words.now)) }
{
    match read_given(alloc, Command::Make, words)? {
        Some(given) => Ok(make_job(&given)),
        None => Ok(None),
    }
}

// Returns the job of `words`, the words after the command's name, or their first fault.
fn read_make(alloc: Global, words: &[String]) -> Result<Result<MakeJob, WordFault>, AllocError>
    ensures { IfOk result (λ read. option_map make_values (result_ok read) ≡ make_job_of (map string_bytes words.now)) }
{
    let found = find_make(alloc, words)?;
    Ok(job_or_fault(found, Command::Make, words))
}

// Does the job: reads nothing, and prints the summary of the run.
fn make<O: Sink>(alloc: Global, job: &MakeJob, out: &mut O) -> Result<(), Cause>
    ensures ends { (disk : DiskView) → Ends (only GivesMake) (make_reading (make_values job.now))
        (offline disk (O.view out.old)) (offline disk (O.view out.new)) (cause_in result) }
    ensures out_counts { CountsSinkFaults (O.view out.old) (O.view out.new) }
{
    let summary = make_summary(alloc, job.number, job.packets)?;
    print(out, summary.as_slice())
}

/// Carries out the command `make`, whose further words are `words`: prints the summary of the run that is made of a
/// number. No file is read or written, and no net is touched.
///
/// The cause of an error is a refusal of words, a fault of `out`, or out of memory.
pub fn answer_make<O: Sink>(alloc: Global, words: &[String], out: &mut O) -> Result<(), Cause>
    ensures ends { (disk : DiskView) → Ends (only GivesMake) (make_words (map string_bytes words.now))
        (offline disk (O.view out.old)) (offline disk (O.view out.new)) (cause_in result) }
    ensures out_counts { CountsSinkFaults (O.view out.old) (O.view out.new) }
{
    match read_make(alloc, words)? {
        Ok(job) => make(alloc, &job, out),
        Err(fault) => Err(Cause::usage(fault)),
    }
}
