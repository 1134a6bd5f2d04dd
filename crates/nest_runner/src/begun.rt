// The workers of a run that its source waits for.
ghost use Rattle.std.specs.Prelude.{◌≡◌, ◌+◌, ◌*◌};

use mark_channel::Begun;

// Returns the count of the workers of a run through `shells` shells, none of which has begun. In each direction they
// are a feeder and a drain for each shell, and a collector. The source isn't one of them.
pub(crate) fn none_begun(shells: u32) -> Begun
    ensures { result.workers ≡ 4 * shells + 2 }
{
    Begun::new(4 * u64::from(shells) + 2)
}
