// The job that the words after `make` ask for.
ghost use Rattle.std.specs.Prelude.{◌≤◌};

// The job of `make`: the number of the generator, and how many packets its load has, 1 to 1,000,000.
#[derive(Drop)]
pub(crate) struct MakeJob {
    pub number: u64,
    pub packets: u32,
    ghost some: { 1 ≤ packets },
    ghost most: { packets ≤ 1000000 },
}
