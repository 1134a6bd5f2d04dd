// Runs a schedule through a nest, shell by shell.
ghost use Rattle.std.specs.Prelude.{◌≡◌, [], map, option_map, IfOk, OnOk};
ghost use Rattle.packet_record.specs.declared.packet.Row.{Row as RowValue};
ghost use Rattle.packet_record.specs.Rows.{entering};
ghost use Rattle.nest_spec.specs.declared.fate.Fate.{Fate as FateValue};
ghost use Rattle.nest_spec.specs.Fates.{fated};
ghost use Rattle.nest_spec.specs.inside.Links.{AreBuilt};
ghost use Rattle.nest_spec.specs.inside.Marks.{marked_through};
ghost use Rattle.nest_spec.specs.Nests.{directions_of, shells_in, walk_of, result_of};
ghost use Rattle.nest_spec.specs.Once.{HaveOneFate};
ghost use Rattle.nest_spec.specs.Walk.{named_log};
ghost use Rattle.nest_plain.specs.Unwritten.{unwritten_log};

use crate::arrivals::ArrivalSource;
use crate::shell::run_from_first;
use crate::{NestRun, UnwrittenLog};
use nest_spec::{Marking, Nest, RunResult, in_nest_order};
use packet_record::{Direction, PackedSchedule, Schedule, SharedSchedule, Timed};
use std::alloc::Global;
use text_base::OutOfMemory;

// Runs a direction's packets through its shells and marks their fates. Returns the logs of the shells in passing order,
// `None` for one without a name, and an empty list. The packets take the room of `room`, and leave theirs in that list.
fn run_direction(
    alloc: Global,
    nest: &Nest,
    direction: Direction,
    schedule: &SharedSchedule,
    marking: &mut Marking<'_>,
    room: Vec<Timed>,
) -> Result<(Vec<Option<UnwrittenLog>>, Vec<Timed>), OutOfMemory>
    requires empty { room.items ≡ [] }
    ensures rows { marking.new.rows ≡ marking.old.rows }
    ensures fates { OnOk result ((f : RowValue → FateValue) → marking.old.fates ≡ fated f marking.old.rows
        → marking.new.fates
        ≡ fated (marked_through nest.now.horizon (shells_in direction nest.now)
        (entering direction nest.now.horizon schedule.now) f)
        marking.old.rows) }
    ensures logs { IfOk result (λ r. map (option_map unwritten_log) r.0.items
        ≡ map named_log (walk_of direction nest.now schedule.now)) }
    ensures built { OnOk result (AreBuilt (directions_of direction nest.now)) }
    ensures empty { IfOk result (λ r. r.1.items ≡ []) }
{
    let arrivals = ArrivalSource {
        schedule: schedule.copy()?,
        direction,
        horizon: nest.horizon(),
    };
    let shells = nest.shells_in(direction)?;
    let mut logs = Vec::with_capacity(alloc, shells.len())?;
    let room = run_from_first(marking, &mut logs, &arrivals, shells.into_iter(), room)?;
    Ok((logs, room))
}

/// Runs the schedule through the nest, each shell over its whole list of arrivals and then the next. Returns the fate
/// of each packet and the named logs, which aren't written out. A log of the first shell of a direction keeps the
/// schedule, in which its arrivals are found again. Returns `OutOfMemory` where an allocation fails.
pub fn run_shared(
    alloc: Global,
    nest: &Nest,
    schedule: &SharedSchedule,
) -> Result<NestRun, OutOfMemory>
    ensures value { IfOk result (λ r. r ≡ result_of nest.now schedule.now) }
    ensures once { OnOk result (HaveOneFate nest.now schedule.now) }
{
    let rows = schedule.rows();
    let mut marking = Marking::of_packed(alloc, rows)?;
    let room = Vec::new(alloc);
    let (up, room) = run_direction(alloc, nest, Direction::Up, schedule, &mut marking, room)?;
    let (down, _) = run_direction(alloc, nest, Direction::Down, schedule, &mut marking, room)?;
    let logs = in_nest_order(alloc, up, down)?;
    Ok(NestRun::new(marking.into_fates(), logs))
}

/// Runs the schedule through the nest as `run_shared` does, and drops it.
pub fn run_packed(
    alloc: Global,
    nest: &Nest,
    schedule: PackedSchedule,
) -> Result<NestRun, OutOfMemory>
    ensures value { IfOk result (λ r. r ≡ result_of nest.now schedule) }
    ensures once { OnOk result (HaveOneFate nest.now schedule) }
{
    run_shared(alloc, nest, &schedule.share()?)
}

/// Runs the schedule through the nest as `run_packed` does, over a packed copy of it.
pub fn run_nest(alloc: Global, nest: &Nest, schedule: &Schedule) -> Result<NestRun, OutOfMemory>
    ensures value { IfOk result (λ r. r ≡ result_of nest.now schedule.now) }
    ensures once { OnOk result (HaveOneFate nest.now schedule.now) }
{
    run_packed(alloc, nest, schedule.pack(alloc)?)
}

/// Runs the schedule through the nest as `run_nest` does, and writes the logs out. Returns `OutOfMemory` where an
/// allocation fails.
pub fn run_plain(alloc: Global, nest: &Nest, schedule: &Schedule) -> Result<RunResult, OutOfMemory>
    ensures value { IfOk result (λ r. r ≡ result_of nest.now schedule.now) }
    ensures once { OnOk result (HaveOneFate nest.now schedule.now) }
{
    run_nest(alloc, nest, schedule)?.into_result()
}
