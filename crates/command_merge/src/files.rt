// The files that a merge writes: its logs in order, then the table of its packets, and then its fates.
ghost use Rattle.std.specs.Prelude.{◌≡◌, IfErr, OnOk, option_map};
ghost use Rattle.mm_base.specs.Disk.{OnlyWrites};
ghost use Rattle.command_ends.specs.Outputs.{holding_all};
ghost use Rattle.command_ends.specs.Stops.{StopsWriting};
ghost use Rattle.command_merge.specs.Merge.{merge_files};
ghost use Rattle.command_merge.specs.inside.Merged.{merged_in};

use crate::fate::sender_fates;
use command_ends::Cause;
use mark_channel::Feeds;
use mm_base::Disk;
use nest_command::{write_logs, write_packets};
use nest_plain::NestRun;
use packet_record::Row;
use sender_merge::Senders;
use std::alloc::Global;

// What a merge gives: the run of its rows, and its senders, which have the rows, if they are kept.
#[derive(Drop)]
pub(crate) struct Merged {
    pub run: NestRun,
    pub senders: Option<Senders>,
}

// Returns the merge of the rows of senders that may be kept.
fn merged_rows(kept: &Option<Senders>) -> &[Row]
    ensures { result.now ≡ merged_in kept.now }
{
    match kept {
        Some(senders) => senders.rows(),
        None => &[],
    }
}

// Writes the files of a merge: its logs in order, then the table of its packets, if there is a name for it, and then its
// fates to `out`.
pub(crate) fn write_files<D: Disk>(
    alloc: Global,
    disk: &mut D,
    table: Option<&str>,
    out: &str,
    merged: Merged,
) -> Result<(), Cause>
    ensures ok { let files = merge_files (option_map (λ s. s.now) table.entry) out.now (merged_in merged.senders) merged.run
        in OnOk result ((D.view disk.new).files ≡ holding_all files (D.view disk.old).files) }
    ensures stopped { let files = merge_files (option_map (λ s. s.now) table.entry) out.now (merged_in merged.senders)
        merged.run in IfErr result (λ cause. StopsWriting files (D.view disk.old) (D.view disk.new) cause) }
    ensures only_writes { OnlyWrites (D.view disk.old) (D.view disk.new) }
{
    let Merged { run, senders } = merged;
    let (fates, logs) = run.into_parts();
    write_logs(alloc, disk, logs)?;
    let fates = sender_fates(alloc, fates.as_slice())?;
    let rows = merged_rows(&senders);
    write_packets(alloc, disk, table, out, rows, fates.as_slice())
}
