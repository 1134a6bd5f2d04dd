// What `mm-relay` reads: the words of its nest, and the traces of its links.
ghost use Rattle.std.specs.Prelude.{◌≤◌, IfErr, IfOk, OnOk};
ghost use Rattle.mm_base.specs.Disk.{DiskView, OnlyReads};
ghost use Rattle.command_ends.specs.Stops.{StopsReading};
ghost use Rattle.command_ends.specs.inside.Accepted.{AcceptsWords};
ghost use Rattle.command_ends.specs.inside.Stops.{ReadsOn};
ghost use Rattle.command_relay.specs.inside.Loaded.{HasNest};
ghost use Rattle.command_relay.specs.Relaying.{relay_inputs, relay_reading};
ghost use Rattle.command_relay.specs.inside.Values.{relay_values};

use crate::job::RelayJob;
use crate::outputs::packet_names;
use command_ends::Cause;
use mm_base::Disk;
use nest_command::{check_count, load_traces, read_plan};
use nest_spec::{Nest, NestWords, build};
use std::alloc::Global;

/// The nest of a relay's words, if these refuse nothing.
pub(crate) fn read_words(alloc: Global, job: &RelayJob<'_>) -> Result<NestWords, Cause>
    ensures read { (disk : DiskView) → ReadsOn (relay_reading (relay_values job.now))
        (relay_inputs (relay_values job.now)) disk disk result }
    ensures accepts { OnOk result (AcceptsWords (relay_reading (relay_values job.now))) }
    ensures small { OnOk result (job.now.horizon ≤ 3600000) }
{
    let outs = packet_names(alloc, job)?;
    read_plan(alloc, job.shells, &[], outs.as_slice(), job.horizon)
}

/// The nest of these words with its traces.
pub(crate) fn load_nest<D: Disk>(
    alloc: Global,
    job: &RelayJob<'_>,
    words: NestWords,
    disk: &mut D,
) -> Result<Nest, Cause>
    requires { job.now.horizon ≤ 3600000 }
    ensures found { IfOk result (λ nest. HasNest (D.view disk.old).files (relay_values job.now) words nest) }
    ensures stopped { IfErr result (λ cause. StopsReading (relay_inputs (relay_values job.now) words)
        (D.view disk.old) (D.view disk.new) cause) }
    ensures only_reads { OnlyReads (D.view disk.old) (D.view disk.new) }
{
    let traces = load_traces(alloc, disk, words.traces())?;
    check_count(job.horizon, &words, traces.as_slice())?;
    Ok(build(alloc, words, traces, job.seed, job.horizon)?)
}
