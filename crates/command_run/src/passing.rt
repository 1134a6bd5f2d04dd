// How the packets of a run pass its nest: over threads while the schedule is read, or after it shell by shell, or by
// single steps in an order.
ghost use Rattle.std.specs.Prelude.{◌≡◌, IfErr, IfOk, true};
ghost use Rattle.mm_base.specs.Disk.{DiskView, OnlyReads};
ghost use Rattle.nest_runner.specs.Streaming.{HasStreamCause};
ghost use Rattle.command_ends.specs.Readings.{Done};
ghost use Rattle.command_ends.specs.Stops.{StopsReading};
ghost use Rattle.nest_command.specs.Inputs.{reading_schedule};
ghost use Rattle.command_run.specs.inside.Loaded.{HasRun};
ghost use Rattle.command_run.specs.inside.Passed.{passed_lists, passed_rows};
ghost use Rattle.command_run.specs.inside.Modes.{mode_of};

use command_ends::{Cause, Host, Limit, Refusal};
use mm_base::{Disk, Pace};
use nest_command::{keep_if, load_packed, load_schedule, schedule_cause};
use nest_core::run_order;
use nest_plain::{NestRun, run_shared};
use nest_runner::{StreamError, run_stream_keeping};
use nest_spec::{Nest, RunResult};
use packet_record::{PackedSchedule, Schedule, SharedSchedule};
use std::alloc::Global;
use std::marker::Sync;
use std::sync::Wait;
use std::thread::Threads;
use text_base::{Bytes, Text};

// How packets pass a nest.
#[derive(Drop)]
pub(crate) enum RunMode {
    Threads,
    ShellByShell,
    // By single steps, in the order that the bytes state.
    Steps(Bytes),
}

impl RunMode {
    // Returns the mode of a run: the order's, if there is one; else shell by shell with `plain`, and over threads
    // without it.
    pub fn new(plain: bool, order: Option<Bytes>) -> Self
        ensures { result ≡ mode_of plain order }
    {
        match order {
            Some(order) => RunMode::Steps(order),
            None if plain => RunMode::ShellByShell,
            None => RunMode::Threads,
        }
    }
}

// What a run gives: its fates, with its logs made in pieces, or whole; and its rows, if they are kept.
#[derive(Drop)]
pub(crate) enum Passed {
    InPieces(NestRun, Option<SharedSchedule>),
    Whole(RunResult, Option<Schedule>),
}

// Returns the cause of a streamed run that gives no result; `name` is that of the schedule's file.
fn stream_cause(name: Text, error: StreamError) -> Cause
    ensures { (old new : DiskView) → HasStreamCause old new name error
        → StopsReading (reading_schedule name Done) old new result }
{
    match error {
        StreamError::Absent => Cause::Refused(Refusal::Absent(name)),
        StreamError::Failed => Cause::ReadFault(name),
        StreamError::OutOfMemory => Cause::OutOfMemory,
        StreamError::TooLong { .. } => Cause::limit(Limit::File(name)),
        StreamError::Schedule(error) => schedule_cause(name, error),
    }
}

// Returns the result of a nest and the schedule in the file `name`, which is read while its packets pass, and that
// schedule.
fn stream_packets<R: Threads + Wait + Sync, D: Disk, Q: Pace + Sync>(
    host: &Host<'_, R>,
    nest: &Nest,
    disk: &mut D,
    name: &str,
    pace: &Q,
) -> Result<(NestRun, PackedSchedule), Cause>
    ensures found { IfOk result (λ r. HasRun (D.view disk.old).files name.now nest.now true r.1 r.0) }
    ensures stopped { IfErr result (λ cause. StopsReading (reading_schedule name.now Done) (D.view disk.old)
        (D.view disk.new) cause) }
    ensures only_reads { OnlyReads (D.view disk.old) (D.view disk.new) }
{
    match run_stream_keeping(host.threads, host.alloc, nest, disk, name, pace) {
        Ok((run, schedule)) => Ok((run, schedule)),
        Err(error) => Err(stream_cause(Text::from_text(host.alloc, name)?, error)),
    }
}

// Returns the result of a nest and the schedule in the file `name`, whose packets pass over threads.
fn pass_threads<R: Threads + Wait + Sync, D: Disk, Q: Pace + Sync>(
    host: &Host<'_, R>,
    nest: &Nest,
    disk: &mut D,
    name: &str,
    keeps: bool,
    pace: &Q,
) -> Result<Passed, Cause>
    ensures found { IfOk result (λ run. HasRun (D.view disk.old).files name.now nest.now keeps (passed_rows run)
        (passed_lists run)) }
    ensures stopped { IfErr result (λ cause. StopsReading (reading_schedule name.now Done) (D.view disk.old)
        (D.view disk.new) cause) }
    ensures only_reads { OnlyReads (D.view disk.old) (D.view disk.new) }
{
    let (run, schedule) = stream_packets(host, nest, disk, name, pace)?;
    if !keeps {
        return Ok(Passed::InPieces(run, None));
    }
    Ok(Passed::InPieces(run, Some(schedule.share()?)))
}

// Returns the result of a nest and the schedule in the file `name`, whose packets pass shell by shell.
fn pass_shells<D: Disk>(
    alloc: Global,
    nest: &Nest,
    disk: &mut D,
    name: &str,
    keeps: bool,
) -> Result<Passed, Cause>
    ensures found { IfOk result (λ run. HasRun (D.view disk.old).files name.now nest.now keeps (passed_rows run)
        (passed_lists run)) }
    ensures stopped { IfErr result (λ cause. StopsReading (reading_schedule name.now Done) (D.view disk.old)
        (D.view disk.new) cause) }
    ensures only_reads { OnlyReads (D.view disk.old) (D.view disk.new) }
{
    let schedule = load_packed(alloc, disk, name)?.share()?;
    let run = run_shared(alloc, nest, &schedule)?;
    Ok(Passed::InPieces(run, keep_if(keeps, schedule)))
}

// Returns the result of a nest and the schedule in the file `name`, whose packets pass by single steps in `order`.
fn pass_steps<D: Disk>(
    alloc: Global,
    nest: &Nest,
    disk: &mut D,
    name: &str,
    keeps: bool,
    order: &[u8],
) -> Result<Passed, Cause>
    ensures found { IfOk result (λ run. HasRun (D.view disk.old).files name.now nest.now keeps (passed_rows run)
        (passed_lists run)) }
    ensures stopped { IfErr result (λ cause. StopsReading (reading_schedule name.now Done) (D.view disk.old)
        (D.view disk.new) cause) }
    ensures only_reads { OnlyReads (D.view disk.old) (D.view disk.new) }
{
    let schedule = load_schedule(alloc, disk, name)?;
    let run = run_order(alloc, nest, &schedule, order)?;
    Ok(Passed::Whole(run, keep_if(keeps, schedule)))
}

// Returns the result of a nest and the schedule in the file `name`, whose packets pass in `mode`, with the rows if they
// are to be kept.
pub(crate) fn pass_packets<R: Threads + Wait + Sync, D: Disk, Q: Pace + Sync>(
    host: &Host<'_, R>,
    nest: &Nest,
    disk: &mut D,
    name: &str,
    mode: RunMode,
    keeps: bool,
    pace: &Q,
) -> Result<Passed, Cause>
    ensures found { IfOk result (λ run. HasRun (D.view disk.old).files name.now nest.now keeps (passed_rows run)
        (passed_lists run)) }
    ensures stopped { IfErr result (λ cause. StopsReading (reading_schedule name.now Done) (D.view disk.old)
        (D.view disk.new) cause) }
    ensures only_reads { OnlyReads (D.view disk.old) (D.view disk.new) }
{
    match mode {
        RunMode::Threads => pass_threads(host, nest, disk, name, keeps, pace),
        RunMode::ShellByShell => pass_shells(host.alloc, nest, disk, name, keeps),
        RunMode::Steps(order) => {
            pass_steps(host.alloc, nest, disk, name, keeps, order.as_slice())
        }
    }
}
