// How far a pool has come.
ghost use Rattle.std.specs.Prelude.{◌≤◌};

use crate::ends::{ConnEnd, ServeError, Served};
use crate::serving::{count_end, tally};
use mm_base::EndError;

/// How many connections a pool accepts in all.
pub(crate) const MOST_SERVED: u32 = u32::MAX;

/// How many connections were accepted, how many of them are being served, and how the others ended.
#[derive(Clone, Copy)]
pub(crate) struct ServingStanding {
    pub begun: u32,
    pub out: u32,
    pub ends: Result<Served, ServeError>,
    pub ghost few: { out ≤ begun },
}

impl ServingStanding {
    ghost use Rattle.std.specs.Prelude.{◌≡◌, ◌<◌, ◌≤◌, ◌+◌, ◌-◌, Ok, Err};
    ghost use Rattle.replay_server.specs.Servings.{no_ends, most_served};
    ghost use Rattle.replay_server.specs.inside.Pools.{IsCounted};
    ghost use Rattle.replay_server.specs.inside.Tallies.{ended, tallied};

    /// Nothing was accepted.
    pub(crate) fn new() -> ServingStanding
        ensures empty { (result.begun ≡ 0) × (result.out ≡ 0) × (result.ends ≡ Ok no_ends) }
        ensures counted { IsCounted result }
    {
        ServingStanding {
            begun: 0,
            out: 0,
            ends: Ok(Served::none()),
        }
    }

    /// One connection more was accepted, and is being served.
    pub(crate) fn accepted(self) -> ServingStanding
        requires { self.begun < most_served }
        ensures counted { IsCounted self → IsCounted result }
        ensures one { (result.begun ≡ self.begun + 1) × (result.out ≡ self.out + 1) × (result.ends ≡ self.ends) }
    {
        ServingStanding {
            begun: self.begun + 1,
            out: self.out + 1,
            ends: self.ends,
        }
    }

    /// One that was served has ended so, and finishing it answered that.
    pub(crate) fn finished(self, end: ConnEnd, done: Result<(), EndError>) -> ServingStanding
        requires some { 0 < self.out }
        requires few { self.begun ≤ most_served }
        requires counted { IsCounted self }
        ensures counted { IsCounted result }
        ensures one { (result.begun ≡ self.begun) × (result.out ≡ self.out - 1)
            × (result.ends ≡ tallied done (ended end self.ends)) }
    {
        let ends = count_end(end, self.ends, self.begun - self.out);
        ServingStanding {
            begun: self.begun,
            out: self.out - 1,
            ends: tally(done, ends),
        }
    }

    /// Accepting was refused so.
    pub(crate) fn refused(self, error: EndError) -> ServingStanding
        ensures counted { IsCounted self → IsCounted result }
        ensures same { (result.begun ≡ self.begun) × (result.out ≡ self.out)
            × (result.ends ≡ tallied (Err error) self.ends) }
    {
        ServingStanding {
            begun: self.begun,
            out: self.out,
            ends: tally(Err(error), self.ends),
        }
    }

    /// Memory was wanting.
    pub(crate) fn wanting(self) -> ServingStanding
        ensures counted { IsCounted result }
        ensures same { (result.begun ≡ self.begun) × (result.out ≡ self.out)
            × (result.ends ≡ Err ServeError.OutOfMemory) }
    {
        ServingStanding {
            begun: self.begun,
            out: self.out,
            ends: Err(ServeError::OutOfMemory),
        }
    }
}
