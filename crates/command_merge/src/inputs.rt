// The inputs of a merge: the traces of its nest, the list of its senders, and the schedules that the list names. Each
// is read before the next.
ghost use Rattle.std.specs.Prelude.{◌≡◌, ◌≢◌, ◌+◌, ◌≤◌, ℕ, List, IfErr, IfOk, MatchResult, None, OnOk, Some, length};
ghost use Rattle.std.specs.Prelude.{map};
ghost use Rattle.mm_base.specs.Disk.{OnlyReads};
ghost use Rattle.text_base.specs.Lines.{lines_of};
ghost use Rattle.command_ends.specs.Readings.{Done};
ghost use Rattle.command_ends.specs.Stops.{RefusesText, StopsReading};
ghost use Rattle.command_merge.specs.List.{list_fault, list_refusal};
ghost use Rattle.command_merge.specs.inside.Loaded.{AddsSchedules, HasNext, HasSenders, HasTraces};
ghost use Rattle.command_merge.specs.MergeReading.{merge_inputs, reading_next, reading_schedules, refused_listed};
ghost use Rattle.command_merge.specs.MergeReading.{refused_total, sender_inputs};
ghost use Rattle.command_merge.specs.inside.Values.{merge_values};
ghost use Rattle.sender_merge.specs.RowLists.{rows_in};

use crate::job::MergeJob;
use crate::list::{ListError, read_list};
use command_ends::{Cause, Limit, Refusal, read_input};
use mm_base::Disk;
use nest_command::{
    check_count, check_outputs, load_packed, load_traces, names_of, packet_outputs,
};
use nest_spec::NestWords;
use packet_record::PackedSchedule;
use std::alloc::Global;
use text_base::Text;
use text_base::limits::MOST_LINES;
use trace_reader::Trace;

// Returns the traces of a nest. Refuses traces with too many opportunities up to the horizon.
pub(crate) fn load_nest_traces<D: Disk>(
    alloc: Global,
    disk: &mut D,
    job: &MergeJob<'_>,
    nest: &NestWords,
) -> Result<Vec<Trace>, Cause>
    requires { job.now.horizon ≤ 3600000 }
    ensures found { IfOk result (λ traces. HasTraces (D.view disk.old).files (merge_values job.now) nest.now
        traces.items) }
    ensures count { IfOk result (λ traces. length traces.items ≡ length nest.now.traces) }
    ensures stopped { IfErr result (λ cause. StopsReading (merge_inputs (merge_values job.now) nest.now)
        (D.view disk.old) (D.view disk.new) cause) }
    ensures only_reads { OnlyReads (D.view disk.old) (D.view disk.new) }
{
    let traces = load_traces(alloc, disk, nest.traces())?;
    check_count(job.horizon, nest, traces.as_slice())?;
    Ok(traces)
}

// Returns the cause of a list's text, in the file `name`, that isn't accepted.
fn list_cause(name: Text, error: ListError) -> Cause
    ensures { (text : List ℕ) → (error ≢ ListError.OutOfMemory → list_fault text ≡ Some error)
        → RefusesText (list_refusal name text) result }
{
    match error {
        ListError::OutOfMemory => Cause::OutOfMemory,
        _ => Cause::Refused(Refusal::BadInput {
            name,
            number: error.number(),
            place: error.line(),
        }),
    }
}

// Returns the names on the lines of a list's text. A refusal names the file `name`.
fn listed_names<'a>(alloc: Global, name: &str, text: &'a [u8]) -> Result<Vec<&'a str>, Cause>
    ensures some { IfOk result (λ names. 1 ≤ length names.items) }
    ensures few { IfOk result (λ names. length names.items ≤ 16) }
    ensures names { IfOk result (λ names. map (λ name. name.now) names.items ≡ lines_of text.now) }
    ensures refused { MatchResult result (λ _. list_refusal name.now text.now ≡ None)
        (λ cause. RefusesText (list_refusal name.now text.now) cause) }
{
    match read_list(alloc, text) {
        Ok(names) => Ok(names),
        Err(error) => Err(list_cause(Text::from_text(alloc, name)?, error)),
    }
}

// Refuses the first output that has one of `names`, the names on the lines of the list, or the name of an output before
// it.
fn check_listed(
    alloc: Global,
    job: &MergeJob<'_>,
    nest: &NestWords,
    names: &[&str],
) -> Result<(), Cause>
    ensures { (list : List ℕ) → map (λ name. name.now) names.now ≡ lines_of list
        → MatchResult result (λ _. refused_listed (merge_values job.now) nest.now list ≡ None)
        (λ cause. RefusesText (refused_listed (merge_values job.now) nest.now list) cause) }
{
    let outs = packet_outputs(alloc, job.table, job.out)?;
    let outputs = names_of(alloc, nest.logs(), outs.as_slice())?;
    check_outputs(alloc, names, outputs.as_slice())
}

// Refuses the schedule `name` if the schedules up to it have more than 1,000,000 lines; `lines` is how many they
// have.
fn check_total(alloc: Global, name: &str, lines: usize) -> Result<(), Cause>
    ensures refused { MatchResult result (λ _. refused_total name.now lines ≡ None)
        (λ cause. RefusesText (refused_total name.now lines) cause) }
    ensures few { OnOk result (lines ≤ 1000000) }
{
    if lines > MOST_LINES as usize {
        return Err(Cause::limit(Limit::Packets(Text::from_text(alloc, name)?)));
    }
    Ok(())
}

// Returns the schedule in the file `name`. The schedules before it have `before` lines in all.
fn load_next<D: Disk>(
    alloc: Global,
    disk: &mut D,
    name: &str,
    before: usize,
) -> Result<PackedSchedule, Cause>
    requires { before ≤ 1000000 }
    ensures found { IfOk result (λ rows. ((text : List ℕ)
        × HasNext (D.view disk.old).files before name.now text rows)) }
    ensures few { IfOk result (λ rows. before + length rows ≤ 1000000) }
    ensures stopped { IfErr result (λ cause. StopsReading (reading_next before name.now Done)
        (D.view disk.old) (D.view disk.new) cause) }
    ensures only_reads { OnlyReads (D.view disk.old) (D.view disk.new) }
{
    let schedule = load_packed(alloc, disk, name)?;
    check_total(alloc, name, before + schedule.rows().len())?;
    Ok(schedule)
}

// Adds the schedules in the files `names` to `schedules`. The schedules before them have `before` lines in all.
fn load_schedules<D: Disk>(
    alloc: Global,
    disk: &mut D,
    names: &[&str],
    before: usize,
    schedules: &mut Vec<PackedSchedule>,
) -> Result<(), Cause>
    requires { before ≤ 1000000 }
    ensures found { OnOk result (AddsSchedules (D.view disk.old).files before (map (λ name. name.now) names.now)
        schedules.old.items schedules.new.items) }
    ensures stopped { IfErr result (λ cause. StopsReading
        (reading_schedules before (map (λ name. name.now) names.now) Done) (D.view disk.old) (D.view disk.new)
        cause) }
    ensures only_reads { OnlyReads (D.view disk.old) (D.view disk.new) }
{
    let Some((name, names)) = names.split_first() else {
        return Ok(());
    };
    let schedule = load_next(alloc, disk, name, before)?;
    let lines = before + schedule.rows().len();
    schedules.push(schedule)?;
    load_schedules(alloc, disk, names, lines, schedules)
}

// Reads the list of a merge, and returns the schedules that it names.
pub(crate) fn load_senders<D: Disk>(
    alloc: Global,
    disk: &mut D,
    job: &MergeJob<'_>,
    nest: &NestWords,
) -> Result<Vec<PackedSchedule>, Cause>
    ensures found { IfOk result (λ schedules. HasSenders (D.view disk.old).files (merge_values job.now) nest.now
        schedules.items) }
    ensures some { IfOk result (λ schedules. 1 ≤ length schedules.items) }
    ensures few { IfOk result (λ schedules. length schedules.items ≤ 16) }
    ensures lines { IfOk result (λ schedules. rows_in schedules.items ≤ 1000000) }
    ensures stopped { IfErr result (λ cause. (traces : List (List ℕ))
        → StopsReading (sender_inputs (merge_values job.now) nest.now traces) (D.view disk.old) (D.view disk.new)
        cause) }
    ensures only_reads { OnlyReads (D.view disk.old) (D.view disk.new) }
{
    let list = read_input(alloc, disk, job.senders)?;
    let names = listed_names(alloc, job.senders, list.as_slice())?;
    check_listed(alloc, job, nest, names.as_slice())?;
    let mut schedules = Vec::with_capacity(alloc, names.len())?;
    load_schedules(alloc, disk, names.as_slice(), 0, &mut schedules)?;
    Ok(schedules)
}
