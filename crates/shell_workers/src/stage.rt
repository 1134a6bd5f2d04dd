// A stage: a direction of one shell between two channels, with its two workers.
ghost use Rattle.std.specs.Prelude.{◌≡◌, ◌≢◌, ◌≤◌, true};
ghost use Rattle.packet_record.specs.declared.item.FlowEnd.TheVariants.{Open, Ended as IsOver, Broken as IsCut};
ghost use Rattle.packet_record.specs.Streams.{no_items};
ghost use Rattle.mark_channel.specs.Ends.{IsSameEnd};
ghost use Rattle.shell_cell.specs.Seats.{IsSameSeat};
ghost use Rattle.shell_workers.specs.Ends.{IfEnded, IfBroken, IfWants, IsPassedOn};
ghost use Rattle.shell_workers.specs.Stages.{IsBroken, IsClosed, IsDone, IsFresh, IsGivenUp, IsSame};

use crate::draining::drain;
use crate::ends::WorkEnd;
use crate::feeding::feeder;
use mark_channel::{Receiver, Run, Sender};
use mm_base::{Pace, Role};
use shell_cell::{DrainSeat, FeedSeat, ShellCell};
use std::marker::Sync;
use std::sync::Wait;
use std::thread::{Threads, join_mut};

/// A direction of one shell: its cell with the two seats, the receiver of the channel before it and the sender of the
/// channel behind it.
#[derive(Drop)]
pub struct Stage {
    pub cell: ShellCell,
    pub feed: FeedSeat,
    pub drain: DrainSeat,
    pub from: Receiver,
    pub to: Sender,
}

// Runs the two workers of a stage beside each other. Each counts itself among those that have begun.
pub(crate) fn run_stage<Q: Pace + Sync, R: Threads + Wait + Sync>(
    run: &Run<'_, Q, R>,
    stage: &mut Stage,
    up: bool,
    shell: u32,
    most: u32,
) -> WorkEnd
    requires fresh { IsFresh stage.old }
    requires most { 1 ≤ most }
    ensures ended { IfEnded result (IsDone stage.new) }
    ensures broken { IfBroken result (IsBroken stage.new) }
    ensures wants { IfWants result (IsGivenUp stage.new) }
    ensures closed { IsClosed stage.new }
    ensures same { IsSame stage.old stage.new }
{
    let Stage {
        cell,
        feed,
        drain: take,
        from,
        to,
    } = stage;
    let cell = &*cell;
    // The drain stands first, since it goes on only once the feeder does: if no thread can be made, it runs last.
    let (drained, fed) = join_mut(
        run.rt,
        &mut || -> WorkEnd
            requires { (take.now.cell ≡ cell.now) × (take.now.flow ≡ no_items) × (to.now.flow ≡ no_items)
                × (to.now.horizon ≡ take.now.horizon) × (1 ≤ most) }
            ensures over { to.exit.now.flow.end ≢ Open }
            ensures ended { IfEnded result (IsPassedOn take.exit.now.flow to.exit.now.flow) }
            ensures broken { IfBroken result ((take.exit.now.flow.end ≡ IsCut) × (to.exit.now.flow ≡ take.exit.now.flow)) }
            ensures wants { IfWants result ((take.exit.now.broken ≡ true) × (to.exit.now.flow.end ≡ IsCut)) }
            ensures same { IsSameEnd to.entry.now to.exit.now × IsSameSeat take.entry.now take.exit.now }
        {
            run.begun.raise();
            let role = Role::Drain { up, shell };
            drain(run.rt, cell, take, to, role, most, run.pace)
        },
        &mut || -> WorkEnd
            requires { (feed.now.cell ≡ cell.now) × (feed.now.flow ≡ no_items) × (from.now.flow ≡ no_items)
                × (from.now.horizon ≡ feed.now.horizon) }
            ensures over { from.exit.now.flow.end ≢ Open }
            ensures fed { feed.exit.now.flow.end ≡ IsOver → feed.exit.now.flow ≡ from.exit.now.flow }
            ensures ended { IfEnded result (from.exit.now.flow.end ≡ IsOver) }
            ensures broken { IfBroken result ((from.exit.now.flow.end ≡ IsCut) × (feed.exit.now.broken ≡ true)) }
            ensures wants { IfWants result (feed.exit.now.broken ≡ true) }
            ensures same { IsSameEnd from.entry.now from.exit.now × IsSameSeat feed.entry.now feed.exit.now }
        {
            run.begun.raise();
            let role = Role::Feeder { up, shell };
            feeder(run.rt, cell, feed, from, role, run.pace)
        },
    );
    fed.worse(drained)
}
