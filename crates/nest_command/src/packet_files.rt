// The files of packets: their table, if one is asked for, and their fates.
ghost use Rattle.std.specs.Prelude.{◌≡◌, ◌-◌, ◌<◌, ℕ, length, option_map, take, IfErr, OnErr, OnOk};
ghost use Rattle.std.specs.List.{flat_map};
ghost use Rattle.mm_base.specs.Disk.{OnlyWrites, HasWriteCause};
ghost use Rattle.mm_base.specs.Files.{holding, lengthened};
ghost use Rattle.nest_spec.specs.TableText.{table_by, table_lines};
ghost use Rattle.command_ends.specs.Outputs.{HoldsSome, holding_all, named_text};
ghost use Rattle.command_ends.specs.Stops.{StopsAtOutput, StopsWriting};
ghost use Rattle.nest_command.specs.RunFiles.{file_if, packet_files_by};

use command_ends::{Cause, file_written};
use mm_base::{Disk, DiskError, append_all, save, save_lines};
use nest_spec::{TABLE_HEADER, TABLE_LINES, TableFate, TableRow, put_table};
use std::alloc::Global;
use text_base::{LineBuffer, PrintLine};

// Appends a line to the file `name` for each row and its fate, some 1,024 lines at once. If it stops, a prefix of
// these lines was appended, but not all.
fn append_table<D: Disk, P: TableRow, F: TableFate>(
    disk: &mut D,
    name: &str,
    lines: &mut LineBuffer,
    rows: &[P],
    fates: &[F],
) -> Result<(), DiskError>
    ensures ok { let text = table_lines P.row_of F.entry_of rows.now fates.now in OnOk result
        ((D.view disk.new).files ≡ lengthened name.now text (D.view disk.old).files) }
    ensures err { let text = table_lines P.row_of F.entry_of rows.now fates.now in OnErr result ((n : ℕ)
        × (n < length text) × ((D.view disk.new).files ≡ lengthened name.now (take n text) (D.view disk.old).files)) }
    ensures only_writes { OnlyWrites (D.view disk.old) (D.view disk.new) }
    ensures cause { HasWriteCause (D.view disk.old) (D.view disk.new) result }
{
    let mut left = rows;
    let mut ends = fates;
    'pieces: while !left.is_empty() && !ends.is_empty() {
        let count = left.len().min(ends.len()).min(TABLE_LINES);
        let (piece, others) = left.split_at(count);
        let (piece_ends, other_ends) = ends.split_at(count);
        put_table(lines, piece, piece_ends);
        append_all(disk, name, lines.as_slice())?;
        left = others;
        ends = other_ends;
    }
    Ok(())
}

// Makes the file `name` hold the text of a table. If it stops, the file is as before, or holds a prefix of the text,
// but not all.
fn save_table<D: Disk, P: TableRow, F: TableFate>(
    alloc: Global,
    disk: &mut D,
    name: &str,
    rows: &[P],
    fates: &[F],
) -> Result<(), DiskError>
    ensures ok { let text = table_by P.row_of F.entry_of rows.now fates.now in OnOk result
        ((D.view disk.new).files ≡ holding name.now text (D.view disk.old).files) }
    ensures err { let text = table_by P.row_of F.entry_of rows.now fates.now in OnErr result
        (HoldsSome (named_text name.now text) (D.view disk.old).files (D.view disk.new).files) }
    ensures only_writes { OnlyWrites (D.view disk.old) (D.view disk.new) }
    ensures cause { HasWriteCause (D.view disk.old) (D.view disk.new) result }
{
    let mut lines = LineBuffer::new(alloc)?;
    save(disk, name, TABLE_HEADER)?;
    append_table(disk, name, &mut lines, rows, fates)
}

// Writes the file of a table.
fn write_table_file<D: Disk, P: TableRow, F: TableFate>(
    alloc: Global,
    disk: &mut D,
    name: &str,
    rows: &[P],
    fates: &[F],
) -> Result<(), Cause>
    ensures ok { let text = table_by P.row_of F.entry_of rows.now fates.now in OnOk result
        ((D.view disk.new).files ≡ holding name.now text (D.view disk.old).files) }
    ensures partly { let text = table_by P.row_of F.entry_of rows.now fates.now in OnErr result
        (HoldsSome (named_text name.now text) (D.view disk.old).files (D.view disk.new).files) }
    ensures stopped { IfErr result (λ cause. StopsAtOutput name.now (D.view disk.old) (D.view disk.new) cause) }
    ensures only_writes { OnlyWrites (D.view disk.old) (D.view disk.new) }
{
    let written = save_table(alloc, disk, name, rows, fates);
    file_written(alloc, name, written)
}

/// Writes the file of a table, if there is a name for it. If writing stops, the file is as before or holds a prefix of
/// its text. The cause is a fault of the disk or out of memory.
pub fn write_table<D: Disk, P: TableRow, F: TableFate>(
    alloc: Global,
    disk: &mut D,
    name: Option<&str>,
    rows: &[P],
    fates: &[F],
) -> Result<(), Cause>
    ensures ok { let text = table_by P.row_of F.entry_of rows.now fates.now in OnOk result ((D.view disk.new).files
        ≡ holding_all (file_if (option_map (λ s. s.now) name.entry) text) (D.view disk.old).files) }
    ensures stopped { let text = table_by P.row_of F.entry_of rows.now fates.now in IfErr result (λ cause. StopsWriting
        (file_if (option_map (λ s. s.now) name.entry) text) (D.view disk.old) (D.view disk.new) cause) }
    ensures only_writes { OnlyWrites (D.view disk.old) (D.view disk.new) }
{
    match name {
        Some(name) => write_table_file(alloc, disk, name, rows, fates),
        None => Ok(()),
    }
}

/// Writes the file of the fates, a line for each. `F` is any form of a fate that is printed. If writing stops, the file
/// is as before or holds a prefix of its text. The cause is a fault of the disk or out of memory.
pub fn write_fates<D: Disk, F: PrintLine>(
    alloc: Global,
    disk: &mut D,
    name: &str,
    fates: &[F],
) -> Result<(), Cause>
    ensures ok { OnOk result ((D.view disk.new).files ≡ holding name.now (flat_map F.line fates.now)
        (D.view disk.old).files) }
    ensures partly { OnErr result (HoldsSome (named_text name.now (flat_map F.line fates.now)) (D.view disk.old).files
        (D.view disk.new).files) }
    ensures stopped { IfErr result (λ cause. StopsAtOutput name.now (D.view disk.old) (D.view disk.new) cause) }
    ensures only_writes { OnlyWrites (D.view disk.old) (D.view disk.new) }
{
    let written = save_lines(alloc, disk, name, b"", fates);
    file_written(alloc, name, written)
}

/// Writes the files of packets: their table, if there is a name for it, and then their fates to `out`. If writing
/// stops, the file before is whole, and the file that it stops at is as before or holds a prefix of its text. The cause
/// is a fault of the disk or out of memory.
pub fn write_packets<D: Disk, P: TableRow, F: PrintLine + TableFate>(
    alloc: Global,
    disk: &mut D,
    table: Option<&str>,
    out: &str,
    rows: &[P],
    fates: &[F],
) -> Result<(), Cause>
    ensures ok { let files = packet_files_by P.row_of F.entry_of F.line (option_map (λ s. s.now) table.entry) out.now rows.now fates.now
        in OnOk result ((D.view disk.new).files ≡ holding_all files (D.view disk.old).files) }
    ensures stopped { let files = packet_files_by P.row_of F.entry_of F.line (option_map (λ s. s.now) table.entry) out.now rows.now
        fates.now in IfErr result (λ cause. StopsWriting files (D.view disk.old) (D.view disk.new) cause) }
    ensures only_writes { OnlyWrites (D.view disk.old) (D.view disk.new) }
{
    write_table(alloc, disk, table, rows, fates)?;
    write_fates(alloc, disk, out, fates)
}
