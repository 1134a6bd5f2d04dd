// The files that a run writes: its logs in order, then the table of its packets, and then its fates.
ghost use Rattle.std.specs.Prelude.{◌≡◌, ◌<◌, ◌-◌, ◌++◌, ℕ, length, take, map, option_map, IfErr, OnOk, OnErr};
ghost use Rattle.mm_base.specs.Disk.{OnlyWrites, HasWriteCause};
ghost use Rattle.mm_base.specs.Files.{holding, lengthened};
ghost use Rattle.shell_log.specs.LogText.{lines_text, log_text};
ghost use Rattle.nest_plain.specs.Unwritten.{unwritten};
ghost use Rattle.command_ends.specs.Outputs.{HoldsSome, holding_all, named_text};
ghost use Rattle.command_ends.specs.Stops.{StopsAtOutput, StopsWriting};
ghost use Rattle.nest_command.specs.RunFiles.{log_file, run_files};

use crate::packet_files::write_packets;
use crate::whole_logs::write_whole_logs;
use command_ends::{Cause, file_written};
use link_core::{LinkLog, LogPieces};
use mm_base::{Disk, DiskError, append_lines, save};
use nest_plain::{NestRun, RunLog, UnwrittenLog};
use nest_spec::{Named, RunResult};
use packet_record::{PackedRow, Row};
use shell_log::HEADER;
use std::alloc::Global;
use text_base::LineBuffer;

// Appends a line to the file `name` for each entry of the piece in hand, and of those that `pieces` still makes, piece
// by piece. If it stops, a prefix of these lines was appended, but not all.
fn append_pieces<D: Disk>(
    disk: &mut D,
    name: &str,
    lines: &mut LineBuffer,
    pieces: &mut LogPieces,
) -> Result<(), DiskError>
    ensures ok { let text = lines_text (pieces.old.piece ++ pieces.old.rest) in OnOk result
        ((D.view disk.new).files ≡ lengthened name.now text (D.view disk.old).files) }
    ensures err { let text = lines_text (pieces.old.piece ++ pieces.old.rest) in OnErr result ((n : ℕ)
        × (n < length text) × ((D.view disk.new).files ≡ lengthened name.now (take n text) (D.view disk.old).files)) }
    ensures only_writes { OnlyWrites (D.view disk.old) (D.view disk.new) }
    ensures cause { HasWriteCause (D.view disk.old) (D.view disk.new) result }
{
    'pieces: loop {
        append_lines(disk, name, lines, pieces.piece())?;
        if !pieces.next()? {
            return Ok(());
        }
    }
}

// Makes the file `name` hold a log's text: its header, and then a line for each entry, written piece by piece as the
// log is made. If it stops, the file is as before, or holds a prefix of the text, but not all. The first piece is
// made before the file is, so that a want of memory for it leaves the file as before; later ones go on in its room.
fn save_pieces<D: Disk>(
    disk: &mut D,
    name: &str,
    lines: &mut LineBuffer,
    log: LinkLog,
) -> Result<(), DiskError>
    ensures ok { OnOk result ((D.view disk.new).files ≡ holding name.now (log_text log) (D.view disk.old).files) }
    ensures err { OnErr result (HoldsSome (named_text name.now (log_text log)) (D.view disk.old).files
        (D.view disk.new).files) }
    ensures only_writes { OnlyWrites (D.view disk.old) (D.view disk.new) }
    ensures cause { HasWriteCause (D.view disk.old) (D.view disk.new) result }
{
    let mut pieces = log.pieces();
    let _ = pieces.next()?;
    save(disk, name, HEADER)?;
    append_pieces(disk, name, lines, &mut pieces)
}

// Finds the arrivals of a log, and makes the file `name` hold its text as `save_pieces` does, with a line buffer of its
// own.
fn save_log<D: Disk>(alloc: Global, disk: &mut D, name: &str, log: RunLog) -> Result<(), DiskError>
    ensures ok { OnOk result ((D.view disk.new).files ≡ holding name.now (log_text log) (D.view disk.old).files) }
    ensures err { OnErr result (HoldsSome (named_text name.now (log_text log)) (D.view disk.old).files
        (D.view disk.new).files) }
    ensures only_writes { OnlyWrites (D.view disk.old) (D.view disk.new) }
    ensures cause { HasWriteCause (D.view disk.old) (D.view disk.new) result }
{
    let log = log.into_link_log()?;
    let mut lines = LineBuffer::new(alloc)?;
    save_pieces(disk, name, &mut lines, log)
}

// Writes the file of a log, and drops the log.
fn write_log<D: Disk>(alloc: Global, disk: &mut D, log: UnwrittenLog) -> Result<(), Cause>
    ensures ok { OnOk result ((D.view disk.new).files ≡ holding log.name (log_text log.log) (D.view disk.old).files) }
    ensures partly { OnErr result (HoldsSome (named_text log.name (log_text log.log)) (D.view disk.old).files
        (D.view disk.new).files) }
    ensures stopped { IfErr result (λ cause. StopsAtOutput log.name (D.view disk.old) (D.view disk.new) cause) }
    ensures only_writes { OnlyWrites (D.view disk.old) (D.view disk.new) }
{
    let Named { name, log } = log;
    let written = save_log(alloc, disk, name.as_str(), log);
    file_written(alloc, name.as_str(), written)
}

/// Writes the files of `logs` in order, and drops each log once its file is written. If writing stops, the files
/// before are whole, and the file that it stops at is as before or holds a prefix of its text. The cause is a fault of
/// the disk or out of memory.
pub fn write_logs<D: Disk>(
    alloc: Global,
    disk: &mut D,
    logs: Vec<UnwrittenLog>,
) -> Result<(), Cause>
    ensures ok { OnOk result ((D.view disk.new).files ≡ holding_all (map log_file (unwritten logs.items))
        (D.view disk.old).files) }
    ensures stopped { IfErr result (λ cause. StopsWriting (map log_file (unwritten logs.items)) (D.view disk.old)
        (D.view disk.new) cause) }
    ensures only_writes { OnlyWrites (D.view disk.old) (D.view disk.new) }
{
    for log in logs {
        write_log(alloc, disk, log)?;
    }
    Ok(())
}

/// Writes the files of a run whose logs are made in pieces: its logs in order, then the table of its packets, if there
/// is a name for it, and then its fates to `out`. `rows` are those of the run; the table alone asks for them. If
/// writing stops, the files before are whole, and the file that it stops at is as before or holds a prefix of its text.
/// The cause is a fault of the disk or out of memory.
pub fn write_in_pieces<D: Disk>(
    alloc: Global,
    disk: &mut D,
    table: Option<&str>,
    out: &str,
    rows: &[PackedRow],
    run: NestRun,
) -> Result<(), Cause>
    ensures ok { OnOk result ((D.view disk.new).files
        ≡ holding_all (run_files (option_map (λ s. s.now) table.entry) out.now rows.now run) (D.view disk.old).files) }
    ensures stopped { IfErr result (λ cause. StopsWriting
        (run_files (option_map (λ s. s.now) table.entry) out.now rows.now run) (D.view disk.old) (D.view disk.new) cause) }
    ensures only_writes { OnlyWrites (D.view disk.old) (D.view disk.new) }
{
    let (fates, logs) = run.into_parts();
    write_logs(alloc, disk, logs)?;
    write_packets(alloc, disk, table, out, rows, fates.as_slice())
}

/// Writes the files of a run whose logs are whole, as `write_in_pieces` does.
pub fn write_whole<D: Disk>(
    alloc: Global,
    disk: &mut D,
    table: Option<&str>,
    out: &str,
    rows: &[Row],
    run: &RunResult,
) -> Result<(), Cause>
    ensures ok { OnOk result ((D.view disk.new).files
        ≡ holding_all (run_files (option_map (λ s. s.now) table.entry) out.now rows.now run.now) (D.view disk.old).files) }
    ensures stopped { IfErr result (λ cause. StopsWriting
        (run_files (option_map (λ s. s.now) table.entry) out.now rows.now run.now) (D.view disk.old) (D.view disk.new)
        cause) }
    ensures only_writes { OnlyWrites (D.view disk.old) (D.view disk.new) }
{
    write_whole_logs(alloc, disk, run.logs())?;
    write_packets(alloc, disk, table, out, rows, run.fates())
}
