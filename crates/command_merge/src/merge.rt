// The command `merge`: its words, its inputs, its packets, and the files that it writes.
ghost use Rattle.std.specs.Prelude.{◌≡◌, ◌≤◌, IfErr, IfOk, OnOk, map, option_map, string_bytes};
ghost use Rattle.mm_base.specs.Disk.{DiskView, OnlyReads};
ghost use Rattle.mm_base.specs.Sink.{SinkView};
ghost use Rattle.command_ends.specs.Answers.{CountsDisk, cause_in};
ghost use Rattle.command_ends.specs.Ends.{Ends, offline};
ghost use Rattle.command_ends.specs.inside.Ends.{FinishesOnly};
ghost use Rattle.command_ends.specs.Outputs.{writes};
ghost use Rattle.command_ends.specs.Alone.{IsLeftAlone};
ghost use Rattle.command_ends.specs.inside.Accepted.{AcceptsWords};
ghost use Rattle.command_ends.specs.Stops.{StopsReading};
ghost use Rattle.command_ends.specs.inside.Stops.{ReadsOn};
ghost use Rattle.command_ends.specs.Works.{only};
ghost use Rattle.command_merge.specs.Merge.{GivesMerge, merge_files};
ghost use Rattle.command_merge.specs.MergeReading.{merge_inputs, merge_reading, merge_words};
ghost use Rattle.command_merge.specs.inside.Merged.{merged_in};
ghost use Rattle.command_merge.specs.inside.Values.{merge_values};

use crate::files::{Merged, write_files};
use crate::inputs::{load_nest_traces, load_senders};
use crate::job::{MergeJob, read_merge};
use command_ends::{Cause, Host};
use mm_base::{Disk, Pace};
use nest_command::{keep_if, packet_outputs, read_plan};
use nest_runner::run_nest_feeds;
use nest_spec::{NestWords, build};
use sender_merge::Senders;
use std::alloc::Global;
use std::marker::Sync;
use std::sync::Wait;
use std::thread::Threads;

// Returns the words of the job's nest. Refuses words that name no nest, then a name that is taken, then a horizon past
// an hour.
fn read_words(alloc: Global, job: &MergeJob<'_>) -> Result<NestWords, Cause>
    ensures read { (disk : DiskView) → ReadsOn (merge_reading (merge_values job.now))
        (merge_inputs (merge_values job.now)) disk disk result }
    ensures accepts { OnOk result (AcceptsWords (merge_reading (merge_values job.now))) }
    ensures small { OnOk result (job.now.horizon ≤ 3600000) }
{
    let outs = packet_outputs(alloc, job.table, job.out)?;
    read_plan(
        alloc,
        job.shells,
        &[job.senders],
        outs.as_slice(),
        job.horizon,
    )
}

// Reads the inputs of a job and returns its run. The nest and the schedules are dropped before any file is written, but
// for the traces of links whose logs have a name, and for the senders if a table is asked for.
fn merge_packets<R: Threads + Wait + Sync, D: Disk, Q: Pace + Sync>(
    host: &Host<'_, R>,
    job: &MergeJob<'_>,
    words: NestWords,
    disk: &mut D,
    pace: &Q,
) -> Result<Merged, Cause>
    requires { job.now.horizon ≤ 3600000 }
    ensures found { IfOk result (λ merged. FinishesOnly GivesMerge (merge_inputs (merge_values job.now) words)
        (D.view disk.old).files (writes (merge_files (option_map (λ s. s.now) job.now.table) job.now.out.now
        (merged_in merged.senders) merged.run))) }
    ensures stopped { IfErr result (λ cause. StopsReading (merge_inputs (merge_values job.now) words) (D.view disk.old)
        (D.view disk.new) cause) }
    ensures only_reads { OnlyReads (D.view disk.old) (D.view disk.new) }
{
    let traces = load_nest_traces(host.alloc, disk, job, &words)?;
    let schedules = load_senders(host.alloc, disk, job, &words)?;
    let nest = build(host.alloc, words, traces, job.seed, job.horizon)?;
    let mut senders = Senders::of_packed(host.alloc, schedules)?;
    let run = run_nest_feeds(host.threads, host.alloc, &nest, &mut senders, pace)?;
    let keeps = job.table.is_some();
    Ok(Merged {
        run,
        senders: keep_if(keeps, senders),
    })
}

// Runs the job: reads its inputs, passes its packets through the nest, and then writes its logs, its table and its
// fates.
fn merge<R: Threads + Wait + Sync, D: Disk, Q: Pace + Sync>(
    host: &Host<'_, R>,
    job: &MergeJob<'_>,
    disk: &mut D,
    pace: &Q,
) -> Result<(), Cause>
    ensures ends { (out : SinkView) → Ends (only GivesMerge) (merge_reading (merge_values job.now))
        (offline (D.view disk.old) out) (offline (D.view disk.new) out) (cause_in result) }
    ensures alone { IsLeftAlone (merge_reading (merge_values job.now)) (D.view disk.old) (D.view disk.new) }
    ensures counts { CountsDisk (D.view disk.old) (D.view disk.new) }
{
    let words = read_words(host.alloc, job)?;
    let merged = merge_packets(host, job, words, disk, pace)?;
    write_files(host.alloc, disk, job.table, job.out, merged)
}

/// Carries out the command `merge`, whose further words are `words`: passes the packets of up to 16 senders, each with
/// a schedule and a thread of its own, through a nest of shells. Writes the logs that the shells' words name, a table of
/// the packets if one is asked for, and then their fates, both in the order of their merge: by moment, then sender, then
/// line. The pace is asked before
/// the turns of the threads. Nothing is printed, and no net is touched.
///
/// The cause of an error is a refusal of words or of an input, a fault of the disk, or out of memory.
pub fn answer_merge<R: Threads + Wait + Sync, D: Disk, Q: Pace + Sync>(
    host: &Host<'_, R>,
    words: &[String],
    disk: &mut D,
    pace: &Q,
) -> Result<(), Cause>
    ensures ends { (out : SinkView) → Ends (only GivesMerge) (merge_words (map string_bytes words.now))
        (offline (D.view disk.old) out) (offline (D.view disk.new) out) (cause_in result) }
    ensures alone { IsLeftAlone (merge_words (map string_bytes words.now)) (D.view disk.old) (D.view disk.new) }
    ensures counts { CountsDisk (D.view disk.old) (D.view disk.new) }
{
    match read_merge(host.alloc, words)? {
        Ok(job) => merge(host, &job, disk, pace),
        Err(fault) => Err(Cause::usage(fault)),
    }
}
