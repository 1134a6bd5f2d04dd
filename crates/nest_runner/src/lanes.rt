// Both directions of a run.
ghost use Rattle.std.specs.Prelude.{◌≡◌, ◌≤◌, ◌+◌, ◌*◌, length, IfOk};
ghost use Rattle.mark_channel.specs.Boths.{ByDirection, OfBoth};
ghost use Rattle.nest_spec.specs.Nests.{directions_of};
ghost use Rattle.nest_runner.specs.Lanes.{IsFreshLane, IsWired, workers_in};
ghost use Rattle.nest_runner.specs.inside.Lanes.{lanes_of};

use crate::lane::{Lane, Path};
use mark_channel::Sender;
use nest_spec::Nest;
use packet_record::{Both, Direction};
use std::alloc::Global;
use text_base::OutOfMemory;

// The lanes of both directions, their heads apart from their paths: the source has the heads while workers have the
// paths.
#[derive(Drop)]
pub(crate) struct Lanes {
    pub heads: Both<Sender>,
    pub paths: Both<Path>,
}

impl Lanes {
    // Opens the lanes of both directions of `nest`. Returns `OutOfMemory` where an allocation fails.
    pub fn open(alloc: Global, nest: &Nest) -> Result<Lanes, OutOfMemory>
        ensures wired { IfOk result (λ lanes. ByDirection
            (λ d lane. IsWired nest.now.horizon (directions_of d nest.now) lane) (lanes_of lanes)) }
        ensures fresh { IfOk result (λ lanes. OfBoth (IsFreshLane nest.now.horizon) (lanes_of lanes)) }
        ensures few { IfOk result (λ lanes. OfBoth (λ path. length path.stages.items ≤ 8) lanes.paths) }
        ensures workers { IfOk result (λ lanes. workers_in lanes.paths ≡ 4 * length nest.now.shells + 2) }
    {
        let Lane {
            head: up_head,
            path: up_path,
        } = Lane::open(alloc, nest, Direction::Up)?;
        let Lane {
            head: down_head,
            path: down_path,
        } = Lane::open(alloc, nest, Direction::Down)?;
        let heads = Both {
            up: up_head,
            down: down_head,
        };
        let paths = Both {
            up: up_path,
            down: down_path,
        };
        Ok(Lanes { heads, paths })
    }

    // Returns the lane of each direction.
    pub fn into_both(self) -> Both<Lane>
        ensures { result ≡ lanes_of self }
    {
        let Lanes { heads, paths } = self;
        let Both {
            up: up_head,
            down: down_head,
        } = heads;
        let Both {
            up: up_path,
            down: down_path,
        } = paths;
        Both {
            up: Lane {
                head: up_head,
                path: up_path,
            },
            down: Lane {
                head: down_head,
                path: down_path,
            },
        }
    }
}
