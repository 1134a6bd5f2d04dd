// The files of logs whose entries are all in memory.
ghost use Rattle.std.specs.Prelude.{◌≡◌, map, IfErr, OnOk, OnErr};
ghost use Rattle.mm_base.specs.Disk.{OnlyWrites, HasWriteCause};
ghost use Rattle.mm_base.specs.Files.{holding};
ghost use Rattle.shell_log.specs.LogText.{log_text};
ghost use Rattle.nest_spec.specs.RunViews.{all_named};
ghost use Rattle.command_ends.specs.Outputs.{HoldsSome, holding_all, named_text};
ghost use Rattle.command_ends.specs.Stops.{StopsAtOutput, StopsWriting};
ghost use Rattle.nest_command.specs.RunFiles.{log_file};

use command_ends::{Cause, file_written};
use mm_base::{Disk, DiskError, save_lines};
use nest_spec::NamedLog;
use shell_log::{HEADER, Log};
use std::alloc::Global;

// Makes the file `name` hold a log's text: its header, and then a line for each entry. If it stops, the file is as
// before, or holds a prefix of the text, but not all.
fn save_whole_log<D: Disk>(
    alloc: Global,
    disk: &mut D,
    name: &str,
    log: &Log,
) -> Result<(), DiskError>
    ensures ok { OnOk result ((D.view disk.new).files
        ≡ holding name.now (log_text log.now.entries) (D.view disk.old).files) }
    ensures err { OnErr result (HoldsSome (named_text name.now (log_text log.now.entries)) (D.view disk.old).files
        (D.view disk.new).files) }
    ensures only_writes { OnlyWrites (D.view disk.old) (D.view disk.new) }
    ensures cause { HasWriteCause (D.view disk.old) (D.view disk.new) result }
{
    save_lines(alloc, disk, name, HEADER, log.entries())
}

// Writes the file of a log.
fn write_whole_log<D: Disk>(alloc: Global, disk: &mut D, log: &NamedLog) -> Result<(), Cause>
    ensures ok { OnOk result ((D.view disk.new).files
        ≡ holding log.now.name (log_text log.now.log.entries) (D.view disk.old).files) }
    ensures partly { OnErr result (HoldsSome (named_text log.now.name (log_text log.now.log.entries))
        (D.view disk.old).files (D.view disk.new).files) }
    ensures stopped { IfErr result (λ cause. StopsAtOutput log.now.name (D.view disk.old) (D.view disk.new) cause) }
    ensures only_writes { OnlyWrites (D.view disk.old) (D.view disk.new) }
{
    let name = log.name.as_str();
    let written = save_whole_log(alloc, disk, name, &log.log);
    file_written(alloc, name, written)
}

/// Writes the files of `logs` in order. If writing stops, the files before are whole, and the file that it stops at is
/// as before or holds a prefix of its text. The cause is a fault of the disk or out of memory.
pub fn write_whole_logs<D: Disk>(
    alloc: Global,
    disk: &mut D,
    logs: &[NamedLog],
) -> Result<(), Cause>
    ensures ok { OnOk result ((D.view disk.new).files ≡ holding_all (map log_file (all_named logs.now))
        (D.view disk.old).files) }
    ensures stopped { IfErr result (λ cause. StopsWriting (map log_file (all_named logs.now)) (D.view disk.old)
        (D.view disk.new) cause) }
    ensures only_writes { OnlyWrites (D.view disk.old) (D.view disk.new) }
{
    for log in logs {
        write_whole_log(alloc, disk, log)?;
    }
    Ok(())
}
