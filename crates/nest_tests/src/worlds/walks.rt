// Tests of worlds by drawn steps. What they collect must be what departs from the last shell when each shell runs over
// its whole list.
use super::step;
use crate::checks::check;
use crate::nests::{Coming, Prepared, Trip, prepare};
use crate::packets::{are, are_first};
use nest_core::World;
use packet_record::{Direction, Draws};
use std::alloc::Global;
use std::process::Abort;

// A nest with a load of 16 packets, and the numbers and moments of what departs from the last shell in each direction.
struct Walk {
    trip: Trip,
    up: &'static [(u32, u64)],
    down: &'static [(u32, u64)],
}

const THREE_SHELLS: &str =
    "mm-delay 7 mm-loss downlink .3 mm-link t t --downlink-queue=droptail --downlink-queue-args=packets=1";

const EIGHT_SHELLS: &str =
    "mm-delay 1 mm-link t t mm-loss uplink .2 mm-delay 0 mm-link t t mm-delay 3 mm-loss downlink .25 mm-delay 2";

static WALKS: [Walk; 3] = [
    Walk {
        trip: Trip {
            nest: "mm-link t t --uplink-queue=drophead --uplink-queue-args=packets=2",
            trace: b"4\n11\n",
            horizon: 40,
            coming: Coming::Load(3, 16),
        },
        up: &[(4, 11), (5, 11), (6, 15), (13, 22), (14, 22), (15, 26)],
        down: &[
            (1, 4),
            (2, 11),
            (3, 15),
            (7, 22),
            (8, 22),
            (10, 26),
            (11, 33),
            (16, 33),
        ],
    },
    Walk {
        trip: Trip {
            nest: THREE_SHELLS,
            trace: b"5\n5\n9\n",
            horizon: 60,
            coming: Coming::Load(4, 16),
        },
        up: &[
            (1, 12),
            (2, 16),
            (3, 16),
            (4, 21),
            (6, 21),
            (10, 25),
            (11, 25),
            (12, 30),
            (13, 30),
            (14, 30),
            (15, 30),
        ],
        down: &[(7, 23), (16, 32)],
    },
    Walk {
        trip: Trip {
            nest: EIGHT_SHELLS,
            trace: b"# mm-trace 2\n3 900\n4 2000\n",
            horizon: 50,
            coming: Coming::Load(5, 16),
        },
        up: &[
            (3, 13),
            (4, 13),
            (7, 25),
            (8, 25),
            (9, 28),
            (12, 32),
            (13, 37),
        ],
        down: &[(2, 12), (6, 21), (10, 29), (11, 33), (15, 37)],
    },
];

// Takes 400 drawn steps. After each, what was collected must be the first of `departed`.
fn wander(rt: &impl Abort, world: &mut World<'_>, number: u64, departed: &[(u32, u64)]) {
    let mut draws = Draws::new(number);
    for _ in 0..400 {
        let actor = draws.draw() % world.actors();
        step(rt, world, actor);
        check(
            rt,
            are_first(world.collected().packets(), departed),
            "a front of what departs",
        );
    }
}

// Takes a step of each actor in turn.
fn round(rt: &impl Abort, world: &mut World<'_>) {
    for actor in 0..world.actors() {
        step(rt, world, actor);
    }
}

// Returns whether the world is finished, and has collected `departed`.
fn has_all(world: &World<'_>, departed: &[(u32, u64)]) -> bool {
    world.finished() && world.quiet() && are(world.collected().packets(), departed)
}

// Takes enough rounds of all actors. Then `departed` must be collected.
fn finish(rt: &impl Abort, world: &mut World<'_>, departed: &[(u32, u64)]) {
    for _ in 0..100 {
        round(rt, world);
    }
    check(rt, has_all(world, departed), "all that departs");
}

// Returns the world of a direction, whose channels hold `capacity` items.
fn world_of<'a>(
    rt: &impl Abort,
    alloc: Global,
    prepared: &'a Prepared,
    direction: Direction,
    capacity: u32,
) -> World<'a> {
    assert!(rt; 1 <= capacity && capacity <= 64);
    World::new(
        alloc,
        &prepared.nest,
        direction,
        &prepared.schedule,
        capacity,
    )
    .expect(rt, "memory")
}

// How many items the channels hold.
static CAPACITIES: [u32; 3] = [1, 2, 64];

// Checks that a direction collects `departed`, whatever the steps and however much the channels hold.
fn collects(
    rt: &impl Abort,
    alloc: Global,
    prepared: &Prepared,
    direction: Direction,
    departed: &[(u32, u64)],
) {
    for capacity in &CAPACITIES {
        let mut world = world_of(rt, alloc, prepared, direction, *capacity);
        wander(rt, &mut world, u64::from(*capacity), departed);
        finish(rt, &mut world, departed);
    }
}

// Checks that both directions of a walk collect what departs from the last shell.
fn is_walked(rt: &impl Abort, alloc: Global, walk: &Walk) {
    let prepared = prepare(rt, alloc, &walk.trip);
    collects(rt, alloc, &prepared, Direction::Up, walk.up);
    collects(rt, alloc, &prepared, Direction::Down, walk.down);
}

#[test]
fn drawn_steps_collect_the_composition(rt: HostRuntime) {
    for walk in &WALKS {
        is_walked(&rt, rt.alloc(), walk);
    }
}
