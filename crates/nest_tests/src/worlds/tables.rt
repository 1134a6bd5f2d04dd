// Tests of worlds by tables of steps.
use super::step;
use crate::checks::check;
use crate::nests::{Coming, Prepared, Trip, prepare};
use nest_core::World;
use packet_record::{Direction, FlowEnd};
use std::alloc::Global;
use std::process::Abort;

// All actors of a world of one shell, in turn.
static ROUND: [u32; 6] = [0, 1, 2, 3, 4, 5];

// The actors behind the feeder.
static TAKES: [u32; 3] = [3, 4, 5];

// Returns the up world of a nest, whose channels hold one item.
fn world_of<'a>(rt: &impl Abort, alloc: Global, prepared: &'a Prepared) -> World<'a> {
    World::new(alloc, &prepared.nest, Direction::Up, &prepared.schedule, 1).expect(rt, "memory")
}

// Returns whether each of the steps changes the world.
fn play(rt: &impl Abort, world: &mut World<'_>, actors: &[u32]) -> bool {
    for actor in actors {
        if !step(rt, world, *actor) {
            return false;
        }
    }
    true
}

// Returns whether one packet was collected, with the number `id` at `moment`.
fn has_one(world: &World<'_>, id: u32, moment: u64) -> bool {
    match world.collected().packets() {
        [only] => only.packet.id == id && only.moment == moment,
        _ => false,
    }
}

// Returns whether each of the steps changes the world, and what was collected then has the bound `bound`.
fn carry(rt: &impl Abort, world: &mut World<'_>, actors: &[u32], bound: u64) -> bool {
    play(rt, world, actors) && world.collected().bound() == bound
}

// Returns whether a packet passes a delay.
fn passes(rt: &impl Abort, world: &mut World<'_>) -> bool {
    play(rt, world, &ROUND)
        && !step(rt, world, 5)
        && has_one(world, 1, 25)
        && !world.quiet()
        && !world.finished()
}

// Returns whether the packet of a trip passes a delay.
fn pass_delay(rt: &impl Abort, alloc: Global, prepared: &Prepared) -> bool {
    passes(rt, &mut world_of(rt, alloc, prepared))
}

static DELAY: Trip = Trip {
    nest: "mm-delay 20",
    trace: b"1\n",
    horizon: 100,
    coming: Coming::Rows(b"5 up 100\n"),
};

#[test]
fn a_packet_passes_a_delay(rt: HostRuntime) {
    let prepared = prepare(&rt, rt.alloc(), &DELAY);
    check(
        &rt,
        pass_delay(&rt, rt.alloc(), &prepared),
        "a packet behind a delay",
    );
}

// Returns whether a link goes on by the mark of the first row, and then by the packet and the end.
fn goes_on(rt: &impl Abort, world: &mut World<'_>) -> bool {
    carry(rt, world, &TAKES, 5)
        && !step(rt, world, 3)
        && carry(rt, world, &ROUND, 9)
        && !step(rt, world, 3)
        && carry(rt, world, &ROUND, 14)
        && carry(rt, world, &ROUND, 14)
}

// Returns whether the link's only packet and the end are collected.
fn ends(rt: &impl Abort, world: &mut World<'_>) -> bool {
    has_one(world, 2, 14)
        && play(rt, world, &TAKES)
        && world.collected().end() == FlowEnd::Ended
        && world.finished()
        && world.quiet()
}

// Returns whether a link goes on and ends.
fn passes_link(rt: &impl Abort, world: &mut World<'_>) -> bool {
    goes_on(rt, world) && ends(rt, world)
}

// Returns whether marks let the link of a trip go on to its end.
fn pass_link(rt: &impl Abort, alloc: Global, prepared: &Prepared) -> bool {
    passes_link(rt, &mut world_of(rt, alloc, prepared))
}

static LINK: Trip = Trip {
    nest: "mm-link t t",
    trace: b"5\n5\n9\n",
    horizon: 20,
    coming: Coming::Rows(b"7 down 100\n9 up 100\n"),
};

#[test]
fn marks_let_a_link_go_on(rt: HostRuntime) {
    let prepared = prepare(&rt, rt.alloc(), &LINK);
    check(
        &rt,
        pass_link(&rt, rt.alloc(), &prepared),
        "a link that goes on",
    );
}
