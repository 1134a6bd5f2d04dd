// The files that a run writes, in either form of its result.
ghost use Rattle.std.specs.Prelude.{◌≡◌, IfErr, OnOk, option_map};
ghost use Rattle.mm_base.specs.Disk.{OnlyWrites};
ghost use Rattle.command_ends.specs.Outputs.{holding_all};
ghost use Rattle.command_ends.specs.Stops.{StopsWriting};
ghost use Rattle.nest_command.specs.RunFiles.{run_files};
ghost use Rattle.command_run.specs.inside.Passed.{passed_lists, passed_rows, rows_in};

use crate::passing::Passed;
use command_ends::Cause;
use mm_base::Disk;
use nest_command::{write_in_pieces, write_whole};
use packet_record::{PackedRow, Row, Schedule, SharedSchedule};
use std::alloc::Global;

// Returns the rows of a schedule that may be kept.
fn packed_rows(kept: &Option<SharedSchedule>) -> &[PackedRow]
    ensures { result.now ≡ rows_in kept.now }
{
    match kept {
        Some(schedule) => schedule.rows(),
        None => &[],
    }
}

// Returns the whole rows of a schedule that may be kept.
fn whole_rows(kept: &Option<Schedule>) -> &[Row]
    ensures { result.now ≡ rows_in kept.now }
{
    match kept {
        Some(schedule) => schedule.rows(),
        None => &[],
    }
}

// Writes the files of a run: its logs in order, then the table of its packets, if there is a name for it, and then its
// fates to `out`.
pub(crate) fn write_files<D: Disk>(
    alloc: Global,
    disk: &mut D,
    table: Option<&str>,
    out: &str,
    run: Passed,
) -> Result<(), Cause>
    ensures ok { let files = run_files (option_map (λ s. s.now) table.entry) out.now (passed_rows run) (passed_lists run) in
        OnOk result ((D.view disk.new).files ≡ holding_all files (D.view disk.old).files) }
    ensures stopped { let files = run_files (option_map (λ s. s.now) table.entry) out.now (passed_rows run)
        (passed_lists run) in IfErr result (λ cause. StopsWriting files (D.view disk.old) (D.view disk.new) cause) }
    ensures only_writes { OnlyWrites (D.view disk.old) (D.view disk.new) }
{
    match run {
        Passed::InPieces(run, kept) => {
            write_in_pieces(alloc, disk, table, out, packed_rows(&kept), run)
        }
        Passed::Whole(run, kept) => write_whole(alloc, disk, table, out, whole_rows(&kept), &run),
    }
}
