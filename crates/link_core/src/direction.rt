// One direction of a link, as its callers see it.
ghost use Rattle.std.specs.Prelude.{◌≡◌, ◌+◌, ◌-◌, ◌<◌, ◌≤◌, ◌++◌, ◌∷◌, [], Some, IsOk, length, map, slice_get, IfOk};
ghost use Rattle.std.specs.Prelude.{OnOk, OnErr};
ghost use Rattle.std.specs.Option.{option_map};
ghost use Prim.Native.Nat.{min};
ghost use Rattle.packet_record.specs.Moments.{AreUpTo};
ghost use Rattle.trace_reader.specs.Opps.{opps};
ghost use Rattle.link_core.specs.Promises.{count_to};
ghost use Rattle.link_core.specs.View.{Link, opps_of, out_of, lost_of, log_of, inside_of, OnlyGoesOn};

use crate::link_log::LinkLog;
use crate::opportunities::Opportunities;
use crate::parts::Parts;
use crate::passage::Passage;
use packet_queue::QueueSpec;
use packet_record::Timed;
use std::alloc::Global;
use std::marker::Model;
use text_base::OutOfMemory;
use text_base::limits::{HOUR, MOST_OPPORTUNITIES};
use trace_reader::Trace;

/// One direction of a link: delivery opportunities, a queue in front of them, and the packet in transit. It keeps no
/// log while it runs: its log is made of its arrivals.
///
/// Contracts see its trace, whether it is played once, its queue, its horizon, how many opportunities are burnt, and
/// the packets that arrived. Everything else that it returns is a function of these.
#[derive(Drop)]
pub struct LinkCore {
    alloc: Global,
    parts: Parts,
}

impl Model for LinkCore {
    ghost use Rattle.link_core.specs.inside.Moves.{IsSettled};
    ghost use Rattle.link_core.specs.View.{Link};

    ghost Value = { Link };

    ghost view = { λ c. record {
      trace = c.parts.opportunities.trace;
      once = c.parts.opportunities.once;
      queue = c.parts.buffer.queue.spec;
      horizon = c.parts.opportunities.horizon;
      burnt = c.parts.burnt;
      arrivals = c.parts.arrived.come;
    } };

    ghost invariant = { λ c. IsSettled c.parts };
}

impl LinkCore {
    /// A link before any arrival, with horizon in milliseconds. It never runs out of memory.
    pub fn new(
        alloc: Global,
        trace: Trace,
        once: bool,
        queue: QueueSpec,
        horizon: u64,
    ) -> Result<LinkCore, OutOfMemory>
        requires horizon { horizon ≤ HOUR }
        requires few { length (opps trace.opportunities once horizon) ≤ MOST_OPPORTUNITIES }
        ensures ok { IsOk result }
        ensures value { IfOk result (λ c. c ≡ record {
          trace = trace;
          once = once;
          queue = queue;
          horizon = horizon;
          burnt = 0;
          arrivals = [];
        }) }
    {
        let opportunities = Opportunities::new(trace, once, horizon);
        Ok(LinkCore {
            alloc,
            parts: Parts::new(alloc, opportunities, queue, false, Vec::new(alloc)),
        })
    }

    /// Burns every opportunity up to the packet's moment, and then lets the packet in. Where it runs out of memory the
    /// link is as it was.
    pub fn arrive(&mut self, t: Timed) -> Result<(), OutOfMemory>
        requires within { t.moment ≤ self.old.horizon }
        requires order { AreUpTo t.moment self.old.arrivals }
        requires burnt { self.old.burnt ≤ count_to (opps_of self.old) t.moment }
        ensures ok { OnOk result (self.new ≡ record self.old {
          burnt = count_to (opps_of self.old) t.moment;
          arrivals = self.old.arrivals ++ t ∷ [];
        }) }
        ensures err { OnErr result (self.new ≡ self.old) }
        ensures goes_on { OnlyGoesOn self.old self.new }
    {
        self.parts.arrive(t)
    }

    /// Burns the next opportunities up to the moment `bound`, at most `most` of them, and returns how many. Where there
    /// is none it needs no memory. Where it runs out of memory the link is as it was.
    pub fn burn(&mut self, bound: u64, most: u32) -> Result<u32, OutOfMemory>
        ensures count { IfOk result (λ n. n ≡ min most (count_to (opps_of self.old) bound - self.old.burnt)) }
        ensures ok { IfOk result (λ n. self.new ≡ record self.old { burnt = self.old.burnt + n }) }
        ensures err { OnErr result (self.new ≡ self.old) }
        ensures due { OnErr result (self.old.burnt < count_to (opps_of self.old) bound) }
        ensures goes_on { OnlyGoesOn self.old self.new }
    {
        self.parts.burn(bound, most)
    }

    /// The packets that departed, in order, each at the moment of its departure.
    pub fn departed(&self) -> &[Timed]
        ensures { result.now ≡ out_of self.now }
    {
        self.parts.departed.as_slice()
    }

    /// The packets that the queue dropped, in order, each at the moment of the arrival that dropped it.
    pub fn lost(&self) -> &[Timed]
        ensures { result.now ≡ lost_of self.now }
    {
        self.parts.buffer.queue.lost()
    }

    /// The log, of all that arrived and of the opportunities that are burnt. It isn't written out: it keeps a copy of
    /// the arrivals, for which memory may run out.
    pub fn log(&self) -> Result<LinkLog, OutOfMemory>
        ensures { IfOk result (λ log. log ≡ log_of self.now) }
    {
        let arrivals = Vec::from_slice(self.alloc, self.parts.arrived.come())?;
        let opportunities = self.parts.opportunities.copy()?;
        let queue = self.parts.buffer.queue.spec();
        Ok(LinkLog::of(self.alloc, opportunities, queue, self.parts.burnt, arrivals))
    }

    /// The numbers of the packets inside, the one in transit first, or out of memory.
    pub fn inside(&self) -> Result<Vec<u32>, OutOfMemory>
        ensures { IfOk result (λ ids. ids.items ≡ map (λ t. t.packet.id) (inside_of self.now)) }
    {
        self.parts.buffer.ids(self.alloc)
    }

    /// The moment of the next opportunity. Returns `None` exactly where all up to the horizon are burnt.
    pub fn next_opportunity(&self) -> Option<u64>
        ensures { result ≡ option_map (λ o. o.moment) (slice_get (opps_of self.now) self.now.burnt) }
    {
        self.parts
            .opportunities
            .at(self.parts.burnt)
            .map(|o| o.moment)
    }

    /// The packets that arrived, in order.
    pub fn arrivals(&self) -> &[Timed]
        ensures { result.now ≡ self.now.arrivals }
    {
        self.parts.arrived.come()
    }

    /// Gives the link up for its lists, none of which is copied. Its log isn't written out. Memory may run out for the
    /// numbers of the packets inside.
    pub fn into_passage(self) -> Result<Passage, OutOfMemory>
        ensures departed { IfOk result (λ p. p.departed.items ≡ out_of self) }
        ensures lost { IfOk result (λ p. p.lost.items ≡ lost_of self) }
        ensures held { IfOk result (λ p. p.held.items ≡ map (λ t. t.packet.id) (inside_of self)) }
        ensures log { IfOk result (λ p. p.log ≡ Some (log_of self)) }
    {
        self.parts.into_passage(self.alloc)
    }

    /// How many opportunities are burnt.
    pub fn burnt(&self) -> u32
        ensures { result ≡ self.now.burnt }
    {
        self.parts.burnt
    }
}
