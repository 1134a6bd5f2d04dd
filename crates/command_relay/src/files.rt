// The files that a relay writes.
ghost use Rattle.std.specs.Prelude.{◌≡◌, IfErr, OnOk};
ghost use Rattle.mm_base.specs.Disk.{OnlyWrites};
ghost use Rattle.command_ends.specs.Outputs.{holding_all};
ghost use Rattle.command_ends.specs.Stops.{StopsWriting};
ghost use Rattle.command_relay.specs.Relaying.{relay_files};
ghost use Rattle.command_relay.specs.inside.Values.{relay_values};

use crate::job::RelayJob;
use command_ends::Cause;
use live_relay::RelayResult;
use mm_base::Disk;
use nest_command::{write_fates, write_schedule, write_table, write_whole_logs};
use std::alloc::Global;

// Writes the logs, the table of the packets and their schedule if they are asked for, and the fates.
pub(crate) fn write_relayed<D: Disk>(
    alloc: Global,
    disk: &mut D,
    job: &RelayJob<'_>,
    relayed: &RelayResult,
) -> Result<(), Cause>
    ensures ok { let files = relay_files (relay_values job.now) relayed.now in OnOk result
        ((D.view disk.new).files ≡ holding_all files (D.view disk.old).files) }
    ensures stopped { let files = relay_files (relay_values job.now) relayed.now in IfErr result
        (λ cause. StopsWriting files (D.view disk.old) (D.view disk.new) cause) }
    ensures only_writes { OnlyWrites (D.view disk.old) (D.view disk.new) }
{
    let rows = relayed.rows.as_slice();
    let fates = relayed.run.fates();
    write_whole_logs(alloc, disk, relayed.run.logs())?;
    write_table(alloc, disk, job.table, rows, fates)?;
    write_schedule(alloc, disk, job.schedule_out, rows)?;
    write_fates(alloc, disk, job.out, fates)
}
