// One direction of a run: how it is opened before any thread starts, and closed after all have ended.
ghost use Rattle.std.specs.Prelude.{◌≡◌, ◌≤◌, length, IfOk};
ghost use Rattle.packet_record.specs.declared.item.FlowEnd.TheVariants.{Ended as IsOver};
ghost use Rattle.packet_record.specs.Streams.{no_items};
ghost use Rattle.shell_state.specs.Shells.{IsInRange, opportunities};
ghost use Rattle.shell_state.specs.States.{new_state};
ghost use Rattle.nest_spec.specs.Nests.{AllFit, directions_of};
ghost use Rattle.nest_spec.specs.Passed.{HavePassed};
ghost use Rattle.nest_runner.specs.Lanes.{AllOwn, IsFreshLane, IsWired, Linked, specs_of};
ghost use Rattle.shell_workers.specs.Stages.{AllDone, AllFresh, IsDone, IsFresh};

use mark_channel::{Receiver, Sender, settle};
use nest_spec::Nest;
use packet_record::Direction;
use shell_state::{DirSpec, ShellState};
use shell_workers::Stage;
use std::alloc::Global;
use text_base::OutOfMemory;

// How many items a channel of a run holds at most.
const CAPACITY: u32 = 64;

// The stages of a direction's shells in passing order, and the receiver of the channel behind the last of them.
#[derive(Drop)]
pub(crate) struct Path {
    pub stages: Vec<Stage>,
    pub last: Receiver,
}

// One direction of a run: the sender of the channel before the first shell, and the path through the shells.
#[derive(Drop)]
pub(crate) struct Lane {
    pub head: Sender,
    pub path: Path,
}

impl Lane {
    // Opens all cells and channels of a direction of `nest`. Returns `OutOfMemory` where an allocation fails.
    pub fn open(alloc: Global, nest: &Nest, direction: Direction) -> Result<Lane, OutOfMemory>
        ensures wired { IfOk result (λ lane. IsWired nest.now.horizon (directions_of direction nest.now) lane) }
        ensures fresh { IfOk result (λ lane. IsFreshLane nest.now.horizon lane) }
        ensures few { IfOk result (λ lane. length lane.path.stages.items ≤ 8) }
        ensures long { IfOk result (λ lane. length lane.path.stages.items ≡ length nest.now.shells) }
    {
        let horizon = nest.horizon();
        nest.shells(); // fact: a nest has at most 8 shells
        let specs = nest.directions(direction)?;
        let (head, first) = mark_channel::open(alloc, CAPACITY, horizon)?;
        let path = open_path(alloc, horizon, specs, first)?;
        Ok(Lane { head, path })
    }

    // Settles the channels and closes the cells of a direction whose workers have ended. Returns the states of its
    // shells in passing order, or `OutOfMemory` where the allocation for them fails.
    pub fn close(self, alloc: Global) -> Result<Vec<ShellState>, OutOfMemory>
        requires linked { Linked self.head.channel self.path.stages.items self.path.last.channel }
        requires own { AllOwn self.head.horizon self.path.stages.items }
        requires done { AllDone self.path.stages.items }
        ensures { IfOk result (λ states. HavePassed self.head.horizon (specs_of self.path.stages.items)
            self.head.flow.packets states.items) }
    {
        let Lane { head, path } = self;
        let Path { stages, last } = path;
        close_stages(alloc, head, stages, last)
    }
}

// Opens the stages of shells that do what `specs` say, in passing order. The first stage receives from `first`.
fn open_path(
    alloc: Global,
    horizon: u64,
    specs: Vec<DirSpec>,
    first: Receiver,
) -> Result<Path, OutOfMemory>
    requires fit { AllFit horizon specs.items }
    requires horizon { horizon ≤ 3600000 }
    requires first { (first.flow ≡ no_items) × (first.horizon ≡ horizon) }
    ensures fresh { IfOk result (λ path. AllFresh path.stages.items × (path.last.flow ≡ no_items)) }
    ensures linked { IfOk result (λ path. Linked first.channel path.stages.items path.last.channel) }
    ensures own { IfOk result (λ path. AllOwn horizon path.stages.items) }
    ensures specs { IfOk result (λ path. specs_of path.stages.items ≡ specs.items) }
{
    let mut stages = Vec::with_capacity(alloc, specs.len())?;
    let mut last = first;
    for spec in specs {
        let (stage, next) = open_stage(alloc, horizon, spec, last)?;
        stages.push(stage)?;
        last = next;
    }
    Ok(Path { stages, last })
}

// Opens the cell of a shell and the channel behind it. Returns the stage, which receives from `from`, and the receiver
// of that channel.
fn open_stage(
    alloc: Global,
    horizon: u64,
    spec: DirSpec,
    from: Receiver,
) -> Result<(Stage, Receiver), OutOfMemory>
    requires fits { IsInRange spec × (length (opportunities spec horizon) ≤ 16000000) }
    requires horizon { horizon ≤ 3600000 }
    requires from { (from.flow ≡ no_items) × (from.horizon ≡ horizon) }
    ensures fresh { IfOk result (λ r. IsFresh r.0) }
    ensures next { IfOk result (λ r. (r.1.flow ≡ no_items) × (r.1.horizon ≡ horizon)) }
    ensures linked { IfOk result (λ r. (r.0.from.channel ≡ from.channel) × (r.0.to.channel ≡ r.1.channel)) }
    ensures state { IfOk result (λ r. r.0.cell.opening ≡ new_state spec horizon) }
{
    let state = ShellState::new(alloc, spec, horizon)?;
    let (cell, feed, drain) = shell_cell::open(alloc, state)?;
    let (to, next) = mark_channel::open(alloc, CAPACITY, horizon)?;
    let stage = Stage {
        cell,
        feed,
        drain,
        from,
        to,
    };
    Ok((stage, next))
}

// Settles each channel and closes each cell. Returns the states in passing order.
fn close_stages(
    alloc: Global,
    head: Sender,
    stages: Vec<Stage>,
    last: Receiver,
) -> Result<Vec<ShellState>, OutOfMemory>
    requires linked { Linked head.channel stages.items last.channel }
    requires own { AllOwn head.horizon stages.items }
    requires done { AllDone stages.items }
    ensures { IfOk result (λ states. HavePassed head.horizon (specs_of stages.items) head.flow.packets states.items) }
{
    let mut states = Vec::with_capacity(alloc, stages.len())?;
    let mut to = head;
    for stage in stages {
        let (state, next) = close_stage(to, stage);
        states.push(state)?;
        to = next;
    }
    settle(to, last);
    Ok(states)
}

// Settles the channel from `before` to the stage, and closes the stage's cell. Returns the state, and the sender of the
// channel behind the stage.
fn close_stage(before: Sender, stage: Stage) -> (ShellState, Sender)
    requires linked { before.channel ≡ stage.from.channel }
    requires own { (stage.feed.cell ≡ stage.cell) × (stage.drain.cell ≡ stage.cell) }
    requires done { IsDone stage }
    ensures fed { result.0.fed.packets ≡ before.flow.packets }
    ensures taken { (result.0.taken.end ≡ IsOver) × (result.1.flow ≡ result.0.taken) }
    ensures spec { result.0.spec ≡ stage.cell.opening.spec }
    ensures horizon { result.0.horizon ≡ stage.cell.opening.horizon }
    ensures channel { result.1.channel ≡ stage.to.channel }
{
    let Stage {
        cell,
        feed,
        drain,
        from,
        to,
    } = stage;
    settle(before, from);
    let state = cell.close(feed, drain);
    (state, to)
}
