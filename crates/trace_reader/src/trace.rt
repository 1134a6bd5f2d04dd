// A trace, and the formula of its opportunities.
ghost use Rattle.std.specs.Prelude.{◌≡◌, ◌<◌, ◌≤◌, ◌^◌, ◌↔◌, ℕ, Option, Some, None, IsTrue, length, slice_get, IfOk};
ghost use Rattle.trace_reader.specs.Orders.{AreRising};
ghost use Rattle.trace_reader.specs.Opps.{up_to, last_moment, opportunity_at, opps};
ghost use Rattle.trace_reader.specs.Traces.{IsTrace};

use crate::packed::PackedOpportunity;
use crate::{Opportunity, TraceForm};
use std::marker::Model;
use std::sync::ArcSlice;
use text_base::OutOfMemory;

/// A packet delivery trace (mm-link): 1 to `MOST_LINES` opportunities whose moments never decrease, the last above 0
/// and at most `GREATEST_MOMENT`. The trace begins again at its last moment, unless it is played once. Its list of
/// opportunities is shared by its copies. Contracts see its form and its list of opportunities.
#[derive(Drop)]
pub struct Trace {
    form: TraceForm,
    list: ArcSlice<PackedOpportunity>,
}

impl Model for Trace {
    ghost use Rattle.std.specs.Arc.{arc_slice_items};
    ghost use Rattle.trace_reader.specs.Traces.{TraceView, IsTrace};

    ghost Value = { TraceView };

    ghost view = { λ t. record { form = t.form; opportunities = arc_slice_items t.list } };

    ghost invariant = { λ t. IsTrace (record { form = t.form; opportunities = arc_slice_items t.list }) };
}

impl Trace {
    ghost use Rattle.trace_reader.specs.declared.opportunity.Opportunity.{Opportunity as OpportunityValue};

    // The trace of this form with the opportunities of `list`, or out of memory.
    pub(crate) fn from_list(
        form: TraceForm,
        list: Vec<PackedOpportunity>,
    ) -> Result<Self, OutOfMemory>
        requires { IsTrace (record { form = form; opportunities = list.items }) }
        ensures { IfOk result (λ t. t ≡ record { form = form; opportunities = list.items }) }
    {
        Ok(Trace {
            form,
            list: ArcSlice::from_vec(list)?,
        })
    }

    /// What the trace's text states.
    pub fn form(&self) -> TraceForm
        ensures form { result ≡ self.now.form }
        ensures trace { IsTrace self.now }
    {
        self.form
    }

    /// How many opportunities one lap has.
    pub fn len(&self) -> usize
        ensures len { result ≡ length self.now.opportunities }
        ensures trace { IsTrace self.now }
    {
        self.list.len()
    }

    /// Opportunity number `i` of the first lap, counted from 0.
    pub fn at(&self, i: usize) -> Opportunity
        requires { i < length self.now.opportunities }
        ensures at { slice_get self.now.opportunities i ≡ Some result }
        ensures trace { IsTrace self.now }
    {
        self.list()[i].opportunity()
    }

    /// The moment of the last opportunity of the first lap, at which the trace begins again.
    pub fn last_moment(&self) -> u64
        ensures last { result ≡ last_moment self.now.opportunities }
        ensures trace { IsTrace self.now }
    {
        let list = self.list();
        list[list.len() - 1].moment()
    }

    // The opportunities of one lap, in order.
    pub(crate) fn list(&self) -> &[PackedOpportunity]
        ensures list { result.now ≡ self.now.opportunities }
        ensures trace { IsTrace self.now }
    {
        self.list.as_slice()
    }

    /// Opportunity number `j`, counted from 0, over as many laps as it takes. Where the trace is played `once`, there
    /// is none past its list.
    pub fn opportunity(&self, j: u64, once: bool) -> Option<Opportunity>
        requires { j < 2 ^ 30 }
        ensures value { result ≡ opportunity_at self.now.opportunities once j }
        ensures none { (result ≡ None) ↔ (IsTrue once × (length self.now.opportunities ≤ j)) }
        ensures trace { IsTrace self.now }
    {
        let count = self.len() as u64;
        if once && j >= count {
            return None;
        }
        let first = self.at((j % count) as usize);
        Some(Opportunity {
            moment: first.moment + j / count * self.last_moment(),
            bytes: first.bytes,
        })
    }

    /// How many opportunities are at the moment `h` or earlier, by whole laps and a search in one lap.
    #[tactic(auto, using(crate::proofs::Counts::count_once, crate::proofs::Counts::count_laps, crate::proofs::Counts::count_fits))]
    pub fn count_to(&self, h: u64, once: bool) -> u64
        requires { h ≤ 10000000000 }
        ensures count { result ≡ length (opps self.now.opportunities once h) }
        ensures which { (j : ℕ) (o : OpportunityValue) → opportunity_at self.now.opportunities once j ≡ Some o
            → (j < result) ↔ (o.moment ≤ h) }
        ensures trace { IsTrace self.now }
    {
        let list = self.list();
        if once {
            return count_up_to(list, h);
        }
        let lap = self.last_moment();
        h / lap * list.len() as u64 + count_up_to(list, h % lap)
    }

    /// The same trace, which shares its list and copies none of it. It runs out of memory only beyond the greatest
    /// number of owners that a list can count.
    pub fn copy(&self) -> Result<Trace, OutOfMemory>
        ensures { IfOk result (λ t. t ≡ self.now) }
    {
        Ok(Trace {
            form: self.form,
            list: self.list.clone()?,
        })
    }
}

// How many of them have moments up to this one.
fn count_up_to(list: &[PackedOpportunity], moment: u64) -> u64
    requires { AreRising list.now }
    ensures count { result ≡ length (up_to moment list.now) }
    ensures within { result ≤ length list.now }
{
    list.partition_point(|packed| packed.moment() <= moment) as u64
}
