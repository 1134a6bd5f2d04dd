// Runs the nest that is made of a number, and sums the run up.
ghost use Rattle.std.specs.Prelude.{◌≡◌, ◌≤◌, IfOk};
ghost use Rattle.command_report.specs.Made.{last_moment, made_horizon};
ghost use Rattle.command_report.specs.SummaryText.{IsSummary};

use crate::made::made_nest;
use crate::printing::print_summary;
use nest_plain::run_nest;
use nest_spec::unpack_fates;
use packet_record::{Row, make_load};
use std::alloc::Global;
use text_base::{Bytes, OutOfMemory};

// Returns the summary of the run that is made of `number`, with `packets` packets, 1 to 1,000,000.
//
// The generator's load for `number` goes through `mm-delay 20` and `mm-link T T`, where `T` is the generator's trace
// for `number`. The link's queues are `droptail` with `packets=50` for the uplink and `drophead` with `bytes=60000`
// for the downlink. `number` is the seed, and the horizon is a second after the last packet's moment. Returns
// `OutOfMemory` if an allocation fails.
#[tactic(auto, using(crate::proofs::LoadLemmas::last_within))]
pub(crate) fn make_summary(alloc: Global, number: u64, packets: u32) -> Result<Bytes, OutOfMemory>
    requires some { 1 ≤ packets }
    requires most { packets ≤ 1000000 }
    ensures { IfOk result (IsSummary number packets) }
{
    let schedule = make_load(alloc, number, packets)?;
    let rows = schedule.rows();
    let nest = made_nest(alloc, number, horizon_of(rows))?;
    let (fates, _) = run_nest(alloc, &nest, &schedule)?.into_parts();
    let fates = unpack_fates(alloc, fates.as_slice())?;
    print_summary(alloc, rows, fates.as_slice())
}

// Returns the horizon of a run: a second after the last row's moment.
fn horizon_of(rows: &[Row]) -> u64
    requires { last_moment rows.now ≤ 3000000 }
    ensures { result ≡ made_horizon rows.now }
{
    let moment = match rows.last() {
        Some(row) => row.timed.moment,
        None => 0,
    };
    moment + 1000
}
