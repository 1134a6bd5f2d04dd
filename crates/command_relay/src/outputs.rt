// The names of the outputs of a relay.
ghost use Rattle.std.specs.Prelude.{◌≡◌, IfOk, map};
ghost use Rattle.command_relay.specs.Relaying.{packet_names};
ghost use Rattle.command_relay.specs.inside.Values.{relay_values};

use crate::job::RelayJob;
use std::alloc::Global;
use text_base::OutOfMemory;

/// Returns the names of the outputs after the logs: of the table and of the schedule, if they are asked for, and of the
/// fates. Returns `OutOfMemory` if an allocation fails.
pub(crate) fn packet_names<'a>(
    alloc: Global,
    job: &RelayJob<'a>,
) -> Result<Vec<&'a str>, OutOfMemory>
    ensures { IfOk result (λ names. map (λ name. name.now) names.items ≡ packet_names (relay_values job.now)) }
{
    let mut names = Vec::with_capacity(alloc, 3)?;
    if let Some(table) = job.table {
        names.push(table)?;
    }
    if let Some(schedule) = job.schedule_out {
        names.push(schedule)?;
    }
    names.push(job.out)?;
    Ok(names)
}
