// The file of a schedule, if one is asked for.
ghost use Rattle.std.specs.Prelude.{◌≡◌, option_map, IfErr, OnErr, OnOk};
ghost use Rattle.mm_base.specs.Disk.{OnlyWrites};
ghost use Rattle.mm_base.specs.Files.{holding};
ghost use Rattle.packet_record.specs.Printing.{schedule_text};
ghost use Rattle.command_ends.specs.Outputs.{HoldsSome, holding_all, named_text};
ghost use Rattle.command_ends.specs.Stops.{StopsAtOutput, StopsWriting};
ghost use Rattle.nest_command.specs.RunFiles.{file_if};

use command_ends::{Cause, file_written};
use mm_base::{Disk, save_lines};
use packet_record::Row;
use std::alloc::Global;

// Writes the file of a schedule, a line for each row.
fn write_schedule_file<D: Disk>(
    alloc: Global,
    disk: &mut D,
    name: &str,
    rows: &[Row],
) -> Result<(), Cause>
    ensures ok { OnOk result ((D.view disk.new).files ≡ holding name.now (schedule_text rows.now)
        (D.view disk.old).files) }
    ensures partly { OnErr result (HoldsSome (named_text name.now (schedule_text rows.now)) (D.view disk.old).files
        (D.view disk.new).files) }
    ensures stopped { IfErr result (λ cause. StopsAtOutput name.now (D.view disk.old) (D.view disk.new) cause) }
    ensures only_writes { OnlyWrites (D.view disk.old) (D.view disk.new) }
{
    let written = save_lines(alloc, disk, name, b"", rows);
    file_written(alloc, name, written)
}

/// Writes the file of a schedule, the text of `rows`, if there is a name for it. If writing stops, the file is as before
/// or holds a prefix of its text. The cause is a fault of the disk or out of memory.
pub fn write_schedule<D: Disk>(
    alloc: Global,
    disk: &mut D,
    name: Option<&str>,
    rows: &[Row],
) -> Result<(), Cause>
    ensures ok { OnOk result ((D.view disk.new).files
        ≡ holding_all (file_if (option_map (λ s. s.now) name.entry) (schedule_text rows.now)) (D.view disk.old).files) }
    ensures stopped { IfErr result (λ cause. StopsWriting
        (file_if (option_map (λ s. s.now) name.entry) (schedule_text rows.now)) (D.view disk.old) (D.view disk.new)
        cause) }
    ensures only_writes { OnlyWrites (D.view disk.old) (D.view disk.new) }
{
    match name {
        Some(name) => write_schedule_file(alloc, disk, name, rows),
        None => Ok(()),
    }
}
