// The parts of a link, and what it does with them: it burns an opportunity, or lets a packet in.
ghost use Rattle.std.specs.Prelude.{◌≡◌, ◌+◌, ◌-◌, ◌<◌, ◌≤◌, ◌++◌, ◌∷◌, [], length, take, drop, IfOk, OnOk, OnErr};
ghost use Rattle.std.specs.Prelude.{◌↔◌, IsTrue, Some, false, slice_get, vec_len, vec_capacity};
ghost use Prim.Native.Nat.{min};
ghost use Rattle.link_core.specs.inside.State.{inside_buffer};
ghost use Rattle.trace_reader.specs.Opps.{up_to};
ghost use Rattle.packet_record.specs.Moments.{AreUpTo};
ghost use Rattle.link_core.specs.views.Span.{span_opps};
ghost use Rattle.link_core.specs.inside.Sound.{Gone, IsSoundAfter, IsSound};
ghost use Rattle.link_core.specs.inside.Moves.{IsSettled, HasRoomTo, UsesRoom, CanEnter};
ghost use Rattle.link_core.specs.inside.Same.{IsSameLink};

use crate::arrivals::Arrivals;
use crate::buffer::Buffer;
use crate::journal::Journal;
use crate::opportunities::Opportunities;
use crate::serving::{note, serve};
use packet_queue::{PacketQueue, QueueSpec};
use packet_record::Timed;
use std::alloc::Global;
use text_base::OutOfMemory;
use text_base::limits::GREATEST_MOMENT;
use trace_reader::Opportunity;

/// The state of one direction of a link. Whoever runs it (`LinkCore`, `LogPieces`, `run_link`) takes what has departed
/// or was written down out of it, so clauses say with `IsSoundAfter` what was taken before.
#[derive(Drop)]
pub struct Parts {
    /// The opportunities up to the horizon.
    pub opportunities: Opportunities,
    /// How many of the opportunities are burnt: these are the first.
    pub burnt: u32,
    /// The packet in transit, and those in the queue.
    pub buffer: Buffer,
    /// The packets that arrived, and those that are to come.
    pub arrived: Arrivals,
    /// The packets that departed and weren't taken yet, each at the moment of its departure.
    pub departed: Vec<Timed>,
    /// The entries of the log that weren't taken yet, if one is kept.
    pub log: Journal,
}

impl Parts {
    /// The parts before any arrival, with a log or without. The packets of `arrivals` are to come.
    pub fn new(
        alloc: Global,
        opportunities: Opportunities,
        queue: QueueSpec,
        logged: bool,
        arrivals: Vec<Timed>,
    ) -> Self
        ensures sound { IsSound result }
        ensures spec { result.buffer.queue.spec ≡ queue }
        ensures opportunities { result.opportunities ≡ opportunities }
        ensures logged { result.log.kept ≡ logged }
        ensures burnt { result.burnt ≡ 0 }
        ensures come { result.arrived.come ≡ [] }
        ensures coming { result.arrived.coming ≡ arrivals.items }
        ensures departed { result.departed.items ≡ [] }
        ensures entries { result.log.entries ≡ [] }
    {
        opportunities.stands(); // fact: they rise
        Parts {
            opportunities,
            burnt: 0,
            buffer: Buffer {
                packet: None,
                used: 0,
                queue: PacketQueue::new(alloc, queue),
            },
            arrived: Arrivals::new(arrivals),
            departed: Vec::new(alloc),
            log: Journal::new(alloc, logged),
        }
    }

    /// Whether opportunities burn with no effect: nothing is inside, and no log is kept.
    pub fn is_idle(&self) -> bool
        ensures { IsTrue result ↔ ((self.now.log.kept ≡ false) × (length (inside_buffer self.now.buffer) ≡ 0)) }
    {
        !self.log.is_kept() && self.buffer.len() == 0
    }

    /// Burns opportunities, with no effect, until `end` of them are burnt.
    pub fn skip_to(&mut self, end: u32)
        ghost gone: { Gone }
        requires sound { IsSoundAfter gone self.old }
        requires unlogged { self.old.log.kept ≡ false }
        requires none { length (inside_buffer self.old.buffer) ≡ 0 }
        requires end { end ≤ length (span_opps self.old.opportunities) }
        requires start { self.old.burnt ≤ end }
        ensures sound { IsSoundAfter gone self.new }
        ensures link { IsSameLink self.old self.new }
        ensures burnt { self.new.burnt ≡ end }
        ensures arrived { self.new.arrived ≡ self.old.arrived }
        ensures room { UsesRoom 0 0 self.old self.new }
    {
        self.burnt = end;
    }

    /// Burns the next opportunity, `o`.
    #[inline(always)]
    pub fn burn_next(&mut self, o: Opportunity)
        ghost gone: { Gone }
        requires sound { IsSoundAfter gone self.old }
        requires next { Some o ≡ slice_get (span_opps self.old.opportunities) self.old.burnt }
        requires few { self.old.burnt < 4294967295 }
        requires short { o.moment ≤ GREATEST_MOMENT }
        requires departures { length (inside_buffer self.old.buffer) + vec_len self.old.departed
            ≤ vec_capacity self.old.departed }
        requires entries { 1 + length (inside_buffer self.old.buffer) ≤ self.old.log.spare }
        ensures sound { IsSoundAfter gone self.new }
        ensures link { IsSameLink self.old self.new }
        ensures burnt { self.new.burnt ≡ self.old.burnt + 1 }
        ensures arrived { self.new.arrived ≡ self.old.arrived }
        ensures room { UsesRoom 0 1 self.old self.new }
    {
        self.burnt += 1;
        serve(&mut self.buffer, o, &mut self.departed, &mut self.log);
    }

    /// Burns the next opportunity. Where nothing is inside and no log is kept, it burns all until `end` are burnt.
    pub fn burn_some(&mut self, end: u32)
        ghost gone: { Gone }
        requires sound { IsSoundAfter gone self.old }
        requires end { end ≤ length (span_opps self.old.opportunities) }
        requires start { self.old.burnt < end }
        requires departures { length (inside_buffer self.old.buffer) + vec_len self.old.departed
            ≤ vec_capacity self.old.departed }
        requires entries { 1 + length (inside_buffer self.old.buffer) ≤ self.old.log.spare }
        ensures sound { IsSoundAfter gone self.new }
        ensures link { IsSameLink self.old self.new }
        ensures burnt { (self.old.burnt < self.new.burnt) × (self.new.burnt ≤ end) }
        ensures arrived { self.new.arrived ≡ self.old.arrived }
        ensures room { UsesRoom 0 1 self.old self.new }
    {
        if self.is_idle() {
            self.skip_to(end);
            return;
        }
        let o = self.opportunities.take(self.burnt);
        self.burn_next(o);
    }

    /// Burns opportunities until `end` of them are burnt.
    pub fn burn_to(&mut self, end: u32)
        ghost gone: { Gone }
        requires sound { IsSoundAfter gone self.old }
        requires end { end ≤ length (span_opps self.old.opportunities) }
        requires start { self.old.burnt ≤ end }
        requires room { HasRoomTo end self.old }
        ensures sound { IsSoundAfter gone self.new }
        ensures link { IsSameLink self.old self.new }
        ensures burnt { self.new.burnt ≡ end }
        ensures arrived { self.new.arrived ≡ self.old.arrived }
        ensures room { HasRoomTo end self.new }
    {
        'burning: while self.burnt < end {
            self.burn_some(end);
        }
    }

    /// Lets in the next packet, `t`. All opportunities up to its moment are burnt, and no others.
    #[inline(always)]
    pub fn enter(&mut self, t: Timed)
        ghost gone: { Gone }
        requires sound { IsSoundAfter gone self.old }
        requires next { CanEnter gone t self.old }
        requires room { HasRoomTo self.old.burnt self.old }
        ensures sound { IsSoundAfter gone self.new }
        ensures link { IsSameLink self.old self.new }
        ensures burnt { self.new.burnt ≡ self.old.burnt }
        ensures come { self.new.arrived.come ≡ self.old.arrived.come ++ t ∷ [] }
        ensures coming { self.new.arrived.coming ≡ drop 1 self.old.arrived.coming }
        ensures room { UsesRoom 1 3 self.old self.new }
    {
        self.arrived.enter();
        let dropped = self.buffer.queue.enqueue(t);
        note(&mut self.log, t, dropped);
    }

    /// Takes the memory that burning `more` opportunities and letting one packet in may need, or runs out of it.
    #[inline(always)]
    pub fn reserve(&mut self, more: usize) -> Result<(), OutOfMemory>
        ghost gone: { Gone }
        requires sound { IsSoundAfter gone self.old }
        requires few { more ≤ 4294967295 }
        ensures sound { IsSoundAfter gone self.new }
        ensures link { IsSameLink self.old self.new }
        ensures burnt { self.new.burnt ≡ self.old.burnt }
        ensures buffer { inside_buffer self.new.buffer ≡ inside_buffer self.old.buffer }
        ensures arrived { self.new.arrived ≡ self.old.arrived }
        ensures room { OnOk result (HasRoomTo (self.old.burnt + more) self.new) }
    {
        let held = self.buffer.len();
        self.buffer.queue.reserve(1)?;
        self.departed.reserve(held)?;
        self.log.reserve(more + held + 2)?;
        Ok(())
    }

    /// Burns every opportunity up to the packet's moment, and then lets the packet in. No other packet was to come.
    pub fn arrive(&mut self, t: Timed) -> Result<(), OutOfMemory>
        requires settled { IsSettled self.old }
        requires within { t.moment ≤ self.old.opportunities.horizon }
        requires order { AreUpTo t.moment self.old.arrived.come }
        requires burnt { self.old.burnt ≤ length (up_to t.moment (span_opps self.old.opportunities)) }
        ensures settled { IsSettled self.new }
        ensures link { IsSameLink self.old self.new }
        ensures burnt { OnOk result (self.new.burnt ≡ length (up_to t.moment (span_opps self.old.opportunities))) }
        ensures arrived { OnOk result (self.new.arrived.come ≡ self.old.arrived.come ++ t ∷ []) }
        ensures err { OnErr result ((self.new.burnt ≡ self.old.burnt)
            × (self.new.arrived.come ≡ self.old.arrived.come)) }
    {
        self.arrived.reserve(1)?;
        let end = self.opportunities.count_from(self.burnt, t.moment);
        self.reserve((end - self.burnt) as usize)?;
        self.burn_to(end);
        self.arrived.push(t);
        self.enter(t);
        Ok(())
    }

    /// Burns the next opportunities up to the moment `bound`, at most `most` of them, and returns how many. Where none
    /// is due it needs no memory and no search.
    pub fn burn(&mut self, bound: u64, most: u32) -> Result<u32, OutOfMemory>
        ghost gone: { Gone }
        requires sound { IsSoundAfter gone self.old }
        ensures sound { IsSoundAfter gone self.new }
        ensures link { IsSameLink self.old self.new }
        ensures arrived { self.new.arrived ≡ self.old.arrived }
        ensures count { IfOk result (λ n. n ≡ min most
            (length (up_to bound (span_opps self.old.opportunities)) - self.old.burnt)) }
        ensures burnt { IfOk result (λ n. self.new.burnt ≡ self.old.burnt + n) }
        ensures err { OnErr result (self.new.burnt ≡ self.old.burnt) }
        ensures due { OnErr result (self.old.burnt < length (up_to bound (span_opps self.old.opportunities))) }
    {
        if !self.opportunities.is_due(self.burnt, bound) {
            return Ok(0);
        }
        let due = self.opportunities.count_from(self.burnt, bound);
        let count = (due - self.burnt).min(most);
        self.reserve(count as usize)?;
        self.burn_to(self.burnt + count);
        Ok(count)
    }
}
