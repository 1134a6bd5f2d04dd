// The command `run`: its words, its inputs, its packets, and the files that it writes.
ghost use Rattle.std.specs.Prelude.{◌≡◌, ◌≤◌, IfErr, IfOk, OnOk, map, option_map, string_bytes};
ghost use Rattle.mm_base.specs.Disk.{DiskView, OnlyReads};
ghost use Rattle.mm_base.specs.Sink.{SinkView};
ghost use Rattle.command_ends.specs.Answers.{CountsDisk, cause_in};
ghost use Rattle.command_ends.specs.Ends.{Ends, offline};
ghost use Rattle.command_ends.specs.inside.Ends.{FinishesOnly};
ghost use Rattle.command_ends.specs.Outputs.{writes};
ghost use Rattle.command_ends.specs.Alone.{IsLeftAlone};
ghost use Rattle.command_ends.specs.inside.Accepted.{AcceptsWords};
ghost use Rattle.command_ends.specs.Stops.{StopsReading};
ghost use Rattle.command_ends.specs.inside.Stops.{ReadsOn};
ghost use Rattle.command_ends.specs.Works.{only};
ghost use Rattle.command_run.specs.inside.Loaded.{HasNest};
ghost use Rattle.nest_command.specs.RunFiles.{run_files};
ghost use Rattle.command_run.specs.Run.{GivesRun};
ghost use Rattle.command_run.specs.RunReading.{input_names, run_inputs, run_reading, run_words};
ghost use Rattle.command_run.specs.inside.Passed.{passed_lists, passed_rows};
ghost use Rattle.command_run.specs.inside.Values.{run_values};

use crate::order::load_order;
use crate::passing::{Passed, RunMode, pass_packets};
use crate::run_files::write_files;
use crate::run_job::{RunJob, read_run};
use command_ends::{Cause, Host};
use mm_base::{Disk, Pace};
use nest_command::{check_count, load_traces, packet_outputs, read_plan};
use nest_spec::{Nest, NestWords, build};
use std::alloc::Global;
use std::marker::Sync;
use std::sync::Wait;
use std::thread::Threads;
use text_base::OutOfMemory;

// Returns the names of the inputs beside the traces: the schedule, and the order if there is one.
fn input_names<'a>(alloc: Global, job: &RunJob<'a>) -> Result<Vec<&'a str>, OutOfMemory>
    ensures { IfOk result (λ names. map (λ name. name.now) names.items ≡ input_names (run_values job.now)) }
{
    let mut names = Vec::with_capacity(alloc, 2)?;
    names.push(job.schedule)?;
    if let Some(order) = job.order {
        names.push(order)?;
    }
    Ok(names)
}

// Returns the words of the job's nest. Refuses words that name no nest, then a name that is taken, then a horizon past
// an hour.
fn read_words(alloc: Global, job: &RunJob<'_>) -> Result<NestWords, Cause>
    ensures read { (disk : DiskView) → ReadsOn (run_reading (run_values job.now)) (run_inputs (run_values job.now))
        disk disk result }
    ensures accepts { OnOk result (AcceptsWords (run_reading (run_values job.now))) }
    ensures small { OnOk result (job.now.horizon ≤ 3600000) }
{
    let inputs = input_names(alloc, job)?;
    let outs = packet_outputs(alloc, job.table, job.out)?;
    read_plan(
        alloc,
        job.shells,
        inputs.as_slice(),
        outs.as_slice(),
        job.horizon,
    )
}

// Returns the nest of `words` with its traces, which are read from their files.
fn load_nest<D: Disk>(
    alloc: Global,
    job: &RunJob<'_>,
    words: NestWords,
    disk: &mut D,
) -> Result<Nest, Cause>
    requires { job.now.horizon ≤ 3600000 }
    ensures found { IfOk result (λ nest. HasNest (D.view disk.old).files (run_values job.now) words nest) }
    ensures stopped { IfErr result (λ cause. StopsReading (run_inputs (run_values job.now) words) (D.view disk.old)
        (D.view disk.new) cause) }
    ensures only_reads { OnlyReads (D.view disk.old) (D.view disk.new) }
{
    let traces = load_traces(alloc, disk, words.traces())?;
    check_count(job.horizon, &words, traces.as_slice())?;
    Ok(build(alloc, words, traces, job.seed, job.horizon)?)
}

// Reads the inputs of a job and returns its run. The nest and the schedule are dropped before any file is written, but
// for the traces of links whose logs have a name, and for the schedule if a table is asked for, or if, shell by shell,
// the log of a first shell has a name.
fn run_packets<R: Threads + Wait + Sync, D: Disk, Q: Pace + Sync>(
    host: &Host<'_, R>,
    job: &RunJob<'_>,
    words: NestWords,
    disk: &mut D,
    pace: &Q,
) -> Result<Passed, Cause>
    requires { job.now.horizon ≤ 3600000 }
    ensures found { IfOk result (λ run. FinishesOnly GivesRun (run_inputs (run_values job.now) words)
        (D.view disk.old).files (writes (run_files (option_map (λ s. s.now) job.now.table) job.now.out.now
        (passed_rows run) (passed_lists run)))) }
    ensures stopped { IfErr result (λ cause. StopsReading (run_inputs (run_values job.now) words) (D.view disk.old)
        (D.view disk.new) cause) }
    ensures only_reads { OnlyReads (D.view disk.old) (D.view disk.new) }
{
    let nest = load_nest(host.alloc, job, words, disk)?;
    let order = load_order(host.alloc, disk, job.order)?;
    let mode = RunMode::new(job.plain, order);
    let keeps = job.table.is_some();
    pass_packets(host, &nest, disk, job.schedule, mode, keeps, pace)
}

// Runs the job: reads its inputs, passes its packets through the nest, and then writes its logs, its table and its
// fates.
fn run<R: Threads + Wait + Sync, D: Disk, Q: Pace + Sync>(
    host: &Host<'_, R>,
    job: &RunJob<'_>,
    disk: &mut D,
    pace: &Q,
) -> Result<(), Cause>
    ensures ends { (out : SinkView) → Ends (only GivesRun) (run_reading (run_values job.now))
        (offline (D.view disk.old) out) (offline (D.view disk.new) out) (cause_in result) }
    ensures alone { IsLeftAlone (run_reading (run_values job.now)) (D.view disk.old) (D.view disk.new) }
    ensures counts { CountsDisk (D.view disk.old) (D.view disk.new) }
{
    let words = read_words(host.alloc, job)?;
    let run = run_packets(host, job, words, disk, pace)?;
    write_files(host.alloc, disk, job.table, job.out, run)
}

/// Carries out the command `run`, whose further words are `words`: passes the packets of a schedule through a nest of
/// shells, and writes the logs that the shells' words name, a table of the packets if one is asked for, and then the
/// fates of the packets. The packets pass over
/// threads; with `--plain` shell by shell; with `--order` by single steps in the order that a file states. The pace is
/// asked before the turns of the threads. Nothing is printed, and no net is touched.
///
/// The cause of an error is a refusal of words or of an input, a fault of the disk, or out of memory.
pub fn answer_run<R: Threads + Wait + Sync, D: Disk, Q: Pace + Sync>(
    host: &Host<'_, R>,
    words: &[String],
    disk: &mut D,
    pace: &Q,
) -> Result<(), Cause>
    ensures ends { (out : SinkView) → Ends (only GivesRun) (run_words (map string_bytes words.now))
        (offline (D.view disk.old) out) (offline (D.view disk.new) out) (cause_in result) }
    ensures alone { IsLeftAlone (run_words (map string_bytes words.now)) (D.view disk.old) (D.view disk.new) }
    ensures counts { CountsDisk (D.view disk.old) (D.view disk.new) }
{
    match read_run(host.alloc, words)? {
        Ok(job) => run(host, &job, disk, pace),
        Err(fault) => Err(Cause::usage(fault)),
    }
}
