// A link over the whole list of its arrivals, and the lists that a link leaves.
ghost use Rattle.std.specs.Prelude.{◌≡◌, ◌≤◌, Some, None, if◌then◌else◌, length, map, take, IfOk};
ghost use Rattle.packet_record.specs.Moments.{AreUpTo, Rise};
ghost use Rattle.trace_reader.specs.Opps.{opps};
ghost use Rattle.link_core.specs.Links.{link_out, link_lost, link_log, link_inside};
ghost use Rattle.link_core.specs.Promises.{AreCovered};
ghost use Rattle.link_core.specs.views.Span.{span_opps};
ghost use Rattle.link_core.specs.inside.Sound.{IsSound, nothing};
ghost use Rattle.link_core.specs.inside.Moves.{IsSettled};
ghost use Rattle.link_core.specs.inside.Play.{IsPlayed, all_arrivals};

use crate::in_place::played_in_place;
use crate::link_log::LinkLog;
use crate::opportunities::Opportunities;
use crate::parts::Parts;
use crate::passage::Passage;
use packet_queue::QueueSpec;
use packet_record::Timed;
use std::alloc::Global;
use text_base::OutOfMemory;
use text_base::limits::{HOUR, MOST_OPPORTUNITIES};
use trace_reader::Trace;

// A link after all its arrivals and its first `last` opportunities.
pub(crate) fn played(
    alloc: Global,
    opportunities: Opportunities,
    queue: QueueSpec,
    last: u32,
    logged: bool,
    arrivals: Vec<Timed>,
) -> Result<Parts, OutOfMemory>
    requires rises { Rise arrivals.items }
    requires within { AreUpTo opportunities.horizon arrivals.items }
    requires covered { AreCovered (span_opps opportunities) last arrivals.items }
    requires few { last ≤ length (span_opps opportunities) }
    ensures sound { IfOk result (λ parts. IsSound parts) }
    ensures played { IfOk result (λ parts. IsPlayed last parts) }
    ensures opportunities { IfOk result (λ parts. parts.opportunities ≡ opportunities) }
    ensures spec { IfOk result (λ parts. parts.buffer.queue.spec ≡ queue) }
    ensures logged { IfOk result (λ parts. parts.log.kept ≡ logged) }
    ensures arrivals { IfOk result (λ parts. all_arrivals nothing parts ≡ arrivals.items) }
{
    let packets = arrivals.len();
    let mut parts = Parts::new(alloc, opportunities, queue, logged, arrivals);
    parts.finish(last, packets)?;
    Ok(parts)
}

impl Parts {
    /// Gives a link's parts up for their lists, none of which is copied. The log isn't written out: it keeps the
    /// arrivals. Memory may run out for the numbers of the packets inside.
    pub fn into_passage(self, alloc: Global) -> Result<Passage, OutOfMemory>
        requires { IsSettled self }
        ensures departed { IfOk result (λ p. p.departed.items ≡ link_out self.buffer.queue.spec
            (take self.burnt (span_opps self.opportunities)) self.arrived.come) }
        ensures lost { IfOk result (λ p. p.lost.items ≡ link_lost self.buffer.queue.spec
            (take self.burnt (span_opps self.opportunities)) self.arrived.come) }
        ensures held { IfOk result (λ p. p.held.items ≡ map (λ t. t.packet.id)
            (link_inside self.buffer.queue.spec (take self.burnt (span_opps self.opportunities)) self.arrived.come)) }
        ensures log { IfOk result (λ p. p.log ≡ Some
            (link_log self.buffer.queue.spec (take self.burnt (span_opps self.opportunities)) self.arrived.come)) }
    {
        let held = self.buffer.ids(alloc)?;
        let queue = self.buffer.queue.spec();
        let log = LinkLog::of(
            alloc,
            self.opportunities,
            queue,
            self.burnt,
            self.arrived.into_list(),
        );
        Ok(Passage {
            departed: self.departed,
            lost: self.buffer.queue.into_lost(),
            held,
            log: Some(log),
        })
    }
}

/// Runs a link over all its arrivals, which are in order and up to the horizon, and burns every opportunity up to the
/// horizon, or runs out of memory. Where `logged`, the passage has the log, not written out, which keeps the
/// arrivals. Otherwise it has none, and what departs takes the places of what arrived.
pub fn run_link(
    alloc: Global,
    trace: Trace,
    once: bool,
    queue: QueueSpec,
    horizon: u64,
    logged: bool,
    arrivals: Vec<Timed>,
) -> Result<Passage, OutOfMemory>
    requires horizon { horizon ≤ HOUR }
    requires few { length (opps trace.opportunities once horizon) ≤ MOST_OPPORTUNITIES }
    requires rises { Rise arrivals.items }
    requires within { AreUpTo horizon arrivals.items }
    ensures departed { IfOk result (λ p. p.departed.items ≡ link_out queue (opps trace.opportunities once horizon)
        arrivals.items) }
    ensures lost { IfOk result (λ p. p.lost.items ≡ link_lost queue (opps trace.opportunities once horizon)
        arrivals.items) }
    ensures held { IfOk result (λ p. p.held.items ≡ map (λ t. t.packet.id)
        (link_inside queue (opps trace.opportunities once horizon) arrivals.items)) }
    ensures log { IfOk result (λ p. p.log ≡ (if logged
        then Some (link_log queue (opps trace.opportunities once horizon) arrivals.items) else None)) }
{
    let opportunities = Opportunities::new(trace, once, horizon);
    let last = opportunities.len();
    if !logged {
        return played_in_place(alloc, opportunities, queue, last, arrivals);
    }
    let parts = played(alloc, opportunities, queue, last, false, arrivals)?;
    parts.into_passage(alloc)
}
