// Traces made from a number.
ghost use Rattle.std.specs.Prelude.{◌≡◌, ◌<◌, ◌+◌, ◌*◌, ◌%◌, map, IfOk};
ghost use Rattle.trace_reader.specs.Made.{made_moments};
ghost use Rattle.trace_reader.specs.declared.opportunity.TraceForm.TheVariants as forms;

use crate::packed::PackedOpportunity;
use crate::{Opportunity, Trace, TraceForm};
use packet_record::Draws;
use std::alloc::Global;
use text_base::OutOfMemory;

/// The trace that the generator makes of `number`, or out of memory: 100 opportunities of 1504 bytes, each 1 to 3
/// milliseconds after the one before, the first after moment 0. Each takes one draw, which modulo 3 plus 1 is the
/// milliseconds.
pub fn make_trace(alloc: Global, number: u64) -> Result<Trace, OutOfMemory>
    ensures form { IfOk result (λ trace. trace.form ≡ forms.Moments) }
    ensures moments { IfOk result (λ trace. map (λ o. o.moment) trace.opportunities ≡ made_moments number) }
{
    let mut draws = Draws::new(number);
    let mut list = Vec::with_capacity(alloc, 100)?;
    let mut moment = 0;
    for _ in 0..100u32 {
        moment += 1 + u64::from(draws.draw() % 3);
        list.push(PackedOpportunity::new(Opportunity {
            moment,
            bytes: 1504,
        }))?;
    }
    Trace::from_list(TraceForm::Moments, list)
}
