// Clocks in memory.
ghost use Rattle.std.specs.Prelude.{◌≤◌, length};
ghost use Rattle.live_relay.specs.MemClocks.{NeverFall};

use live_relay::MemClock;
use std::alloc::Global;
use text_base::OutOfMemory;

// The moments that a clock reads in turn. It stands at the last one.
pub enum Times {
    // 21.
    Late,
    // 20 and 21.
    LastThenLate,
    // 1 and 21.
    FirstThenLate,
    // 20.
    Last,
    // 5.
    Standing,
    // 4 and 12.
    OneTurn,
    // 1, 3, 6 and 21.
    ThreeTurns,
    // 1, 3, 6, 7 and 21.
    FourTurns,
    // 1, 3, 6 and 7.
    StandingAtSeven,
}

// The moments of these times.
fn moments_of(times: &Times) -> &'static [u64]
    ensures some { 1 ≤ length result.now }
    ensures never_fall { NeverFall 0 result.now }
{
    match times {
        Times::Late => &[21],
        Times::LastThenLate => &[20, 21],
        Times::FirstThenLate => &[1, 21],
        Times::Last => &[20],
        Times::Standing => &[5],
        Times::OneTurn => &[4, 12],
        Times::ThreeTurns => &[1, 3, 6, 21],
        Times::FourTurns => &[1, 3, 6, 7, 21],
        Times::StandingAtSeven => &[1, 3, 6, 7],
    }
}

// A clock of these times.
pub fn clock_of(alloc: Global, times: &Times) -> Result<MemClock, OutOfMemory> {
    Ok(MemClock::new(alloc, Vec::from_slice(alloc, moments_of(times))?))
}
