// The schedule of a run, read from its file.
ghost use Rattle.std.specs.Prelude.{◌≡◌, ◌≢◌, ℕ, List, None, IfOk, IfErr, MatchResult};
ghost use Rattle.mm_base.specs.Disk.{OnlyReads};
ghost use Rattle.packet_record.specs.PartsRead.{HasRead};
ghost use Rattle.text_base.specs.Lines.{lines_of};
ghost use Rattle.packet_record.specs.Schedules.{IsScheduleText, first_fault};
ghost use Rattle.command_ends.specs.Readings.{Done};
ghost use Rattle.command_ends.specs.Stops.{IsInput, RefusesText, StopsAtFile, StopsReading};
ghost use Rattle.nest_command.specs.Inputs.{reading_schedule, schedule_refusal};
ghost use Rattle.nest_command.specs.Loaded.{HasSchedule};

use command_ends::{Cause, Limit, Refusal, input_size, read_pieces};
use mm_base::Disk;
use packet_record::{PackedSchedule, Schedule, ScheduleError, ScheduleParser};
use std::alloc::Global;
use text_base::Text;

/// Returns the cause of a schedule's text, in the file `name`, that isn't accepted: its limit of packets, out of
/// memory, or `error` as the refusal of that file.
pub fn schedule_cause(name: Text, error: ScheduleError) -> Cause
    ensures { (text : List ℕ) → (error ≢ ScheduleError.OutOfMemory → first_fault 1 0 (lines_of text) ≡ Some error)
        → RefusesText (schedule_refusal name text) result }
{
    match error {
        ScheduleError::TooMany => Cause::limit(Limit::Packets(name)),
        ScheduleError::OutOfMemory => Cause::OutOfMemory,
        _ => Cause::Refused(Refusal::BadInput {
            name,
            number: error.number(),
            place: error.line(),
        }),
    }
}

// Reads a schedule's text from the file `name`, in pieces.
fn read_schedule_file<D: Disk>(
    alloc: Global,
    disk: &mut D,
    name: &str,
) -> Result<ScheduleParser, Cause>
    ensures read { IfOk result (λ text. ((bytes : List ℕ) × IsInput (D.view disk.old).files name.now bytes
        × HasRead bytes text)) }
    ensures stopped { IfErr result (λ cause. StopsAtFile name.now (D.view disk.old) (D.view disk.new) cause) }
    ensures only_reads { OnlyReads (D.view disk.old) (D.view disk.new) }
{
    let size = input_size(alloc, disk, name)?;
    let mut text = ScheduleParser::new(alloc, size as usize)?;
    read_pieces(alloc, disk, name, size, &mut text)?;
    Ok(text)
}

// Returns the schedule whose text was read. A refusal names the file `name`.
fn schedule_of(alloc: Global, name: &str, text: ScheduleParser) -> Result<PackedSchedule, Cause>
    ensures rows { (bytes : List ℕ) → HasRead bytes text → IfOk result (λ rows. IsScheduleText bytes rows) }
    ensures refused { (bytes : List ℕ) → HasRead bytes text
        → MatchResult result (λ _. schedule_refusal name.now bytes ≡ None)
        (λ cause. RefusesText (schedule_refusal name.now bytes) cause) }
{
    match text.finish() {
        Ok(schedule) => Ok(schedule),
        Err(error) => Err(schedule_cause(Text::from_text(alloc, name)?, error)),
    }
}

/// Returns the schedule in the file `name`, packed. The cause of what can't be read is its refusal, a fault of the disk,
/// or out of memory.
pub fn load_packed<D: Disk>(
    alloc: Global,
    disk: &mut D,
    name: &str,
) -> Result<PackedSchedule, Cause>
    ensures found { IfOk result (λ rows. ((text : List ℕ) × HasSchedule (D.view disk.old).files name.now text rows)) }
    ensures stopped { IfErr result (λ cause. StopsReading (reading_schedule name.now Done) (D.view disk.old)
        (D.view disk.new) cause) }
    ensures only_reads { OnlyReads (D.view disk.old) (D.view disk.new) }
{
    let text = read_schedule_file(alloc, disk, name)?;
    schedule_of(alloc, name, text)
}

/// Returns the schedule in the file `name`, as `load_packed` does, with whole rows.
pub fn load_schedule<D: Disk>(alloc: Global, disk: &mut D, name: &str) -> Result<Schedule, Cause>
    ensures found { IfOk result (λ rows. ((text : List ℕ) × HasSchedule (D.view disk.old).files name.now text rows)) }
    ensures stopped { IfErr result (λ cause. StopsReading (reading_schedule name.now Done) (D.view disk.old)
        (D.view disk.new) cause) }
    ensures only_reads { OnlyReads (D.view disk.old) (D.view disk.new) }
{
    let packed = load_packed(alloc, disk, name)?;
    Ok(packed.unpack(alloc)?)
}
