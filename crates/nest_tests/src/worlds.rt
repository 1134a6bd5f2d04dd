// Tests of worlds by tables of steps and by drawn steps, and of runs by orders.
use nest_core::World;
use std::process::Abort;

mod orders;
mod tables;
mod walks;

// Does the step of an actor, and returns whether that changed the world.
fn step(rt: &impl Abort, world: &mut World<'_>, actor: u32) -> bool {
    assert!(rt; actor < world.actors());
    world.step(actor).expect(rt, "memory")
}
