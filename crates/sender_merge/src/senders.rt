// Several senders that feed one nest.
ghost use Rattle.std.specs.Prelude.{◌≡◌, ◌≢◌, ◌≤◌, ◌+◌, length, IfOk};
ghost use Rattle.packet_record.specs.declared.item.FlowEnd.TheVariants.{Open};
ghost use Rattle.packet_record.specs.declared.packet.Direction.TheVariants.{Up, Down};
ghost use Rattle.packet_record.specs.Streams.{no_items};
ghost use Rattle.mark_channel.specs.Ends.{IsSameEnd};
ghost use Rattle.mark_channel.specs.Feedings.{HasSentRows, IfFed};
ghost use Rattle.sender_merge.specs.Merges.{merge_rows};
ghost use Rattle.sender_merge.specs.inside.Gates.{AllFresh};
ghost use Rattle.sender_merge.specs.RowLists.{rows_in};

use crate::feeding::feed_gates;
use crate::gates::Gates;
use crate::row_merge::merge_schedules;
use mark_channel::{Begun, FeedEnd, Feeds, Run, Sender};
use mm_base::{NoPace, Pace};
use packet_record::{Item, PackedSchedule, Row, Schedule};
use std::alloc::Global;
use std::marker::{Model, Sync};
use std::sync::Wait;
use std::thread::Threads;
use text_base::OutOfMemory;

// How many threads merge: one for each direction.
const MERGES: u64 = 2;

/// From 1 to 16 senders that feed one nest up to a horizon in milliseconds, each with a schedule and a thread of its
/// own. Contracts see the list of their schedules, the first sender's first.
///
/// They feed the merge of their rows, ordered by moment, then sender, then line, whatever the order in which their
/// threads get their turns. In it the row of line `l` of sender `c`, both counted from 1, has the number
/// `16 * (l - 1) + c`.
///
/// No sender sends before all threads have begun. If one can't begin beside the others, all senders break off after two
/// seconds, and the feeding returns `OutOfMemory`.
#[derive(Drop)]
pub struct Senders {
    alloc: Global,
    schedules: Vec<PackedSchedule>,
    rows: Vec<Row>,
}

// Packs the rows of the schedules. Drops each schedule as soon as it is packed.
fn pack_all(alloc: Global, schedules: Vec<Schedule>) -> Result<Vec<PackedSchedule>, OutOfMemory>
    ensures { IfOk result (λ packed. packed.items ≡ schedules.items) }
{
    let mut packed = Vec::with_capacity(alloc, schedules.len())?;
    for schedule in schedules {
        packed.push(schedule.pack(alloc)?)?;
    }
    Ok(packed)
}

impl Model for Senders {
    ghost use Rattle.std.specs.Prelude.{List};
    ghost use Rattle.packet_record.specs.declared.packet.Row.{Row as RowValue};

    ghost Value = { List (List RowValue) };

    ghost use Rattle.sender_merge.specs.views.Senders.{senders_view};
    ghost use Rattle.sender_merge.specs.inside.SendersInside.{AreSenders};

    ghost view = { senders_view };

    ghost invariant = { AreSenders };
}

impl Senders {
    /// Returns senders of `schedules`, 1 to 16, with at most 1,000,000 lines in all, which `count_rows` counts. Returns
    /// `OutOfMemory` if an allocation fails.
    pub fn new(alloc: Global, schedules: Vec<Schedule>) -> Result<Senders, OutOfMemory>
        requires some { 1 ≤ length schedules.items }
        requires few { length schedules.items ≤ 16 }
        requires lines { rows_in schedules.items ≤ 1000000 }
        ensures { IfOk result (λ s. s ≡ schedules.items) }
    {
        let packed = pack_all(alloc, schedules)?;
        Senders::of_packed(alloc, packed)
    }

    /// Returns senders of packed schedules, as `new` does of whole ones.
    pub fn of_packed(alloc: Global, schedules: Vec<PackedSchedule>) -> Result<Senders, OutOfMemory>
        requires some { 1 ≤ length schedules.items }
        requires few { length schedules.items ≤ 16 }
        requires lines { rows_in schedules.items ≤ 1000000 }
        ensures { IfOk result (λ s. s ≡ schedules.items) }
    {
        let rows = merge_schedules(alloc, schedules.as_slice())?;
        Ok(Senders {
            alloc,
            schedules,
            rows,
        })
    }

    /// Returns how many threads feed: one for each sender, and one for each direction that merges what they send.
    pub fn threads(&self) -> u64
        ensures { result ≡ length self.now + 2 }
    {
        self.schedules.len() as u64 + MERGES
    }

    /// Feeds as `feed` does, by threads that wait for each other by `begun`, which waits for at least as many workers as
    /// `threads` returns. The pace is asked before each row of each sender, in its thread, with the row's place in its
    /// schedule counted from 1. If `begun` waits for more workers than that, all senders break off, and the feeding
    /// returns `OutOfMemory`.
    pub fn feed_at<Q: Pace + Sync, R: Threads + Wait + Sync>(
        &mut self,
        rt: &R,
        horizon: u64,
        begun: Begun,
        up: &mut Sender,
        down: &mut Sender,
        pace: &Q,
    ) -> FeedEnd
        requires waits { length self.old + 2 ≤ begun.workers }
        requires empty { (up.old.flow ≡ no_items) × (down.old.flow ≡ no_items) }
        requires within { (up.old.horizon ≡ horizon) × (down.old.horizon ≡ horizon) }
        ensures same_senders { self.new ≡ self.old }
        ensures closed { (up.new.flow.end ≢ Open) × (down.new.flow.end ≢ Open) }
        ensures up { IfFed result (HasSentRows Up horizon (merge_rows self.old) up.new.flow) }
        ensures down { IfFed result (HasSentRows Down horizon (merge_rows self.old) down.new.flow) }
        ensures same { IsSameEnd up.old up.new × IsSameEnd down.old down.new }
    {
        let schedules = self.schedules.as_slice();
        let Ok(gates) = Gates::open(self.alloc, horizon, schedules.len()) else {
            up.send(rt, Item::Broken);
            down.send(rt, Item::Broken);
            return FeedEnd::OutOfMemory;
        };
        let run = Run {
            rt,
            pace,
            begun: &begun,
        };
        feed_through(&run, schedules, horizon, gates, up, down)
    }
}

// Feeds through the channels of `gates`, and settles them.
fn feed_through<Q: Pace + Sync, R: Threads + Wait + Sync>(
    run: &Run<'_, Q, R>,
    schedules: &[PackedSchedule],
    horizon: u64,
    gates: Gates,
    up: &mut Sender,
    down: &mut Sender,
) -> FeedEnd
    requires few { (1 ≤ length schedules.now) × (length schedules.now ≤ 16) }
    requires fresh { AllFresh horizon gates.outlets.items gates.ups.items gates.downs.items }
    requires long { length gates.outlets.items ≡ length schedules.now }
    requires empty { (up.old.flow ≡ no_items) × (down.old.flow ≡ no_items) }
    requires within { (up.old.horizon ≡ horizon) × (down.old.horizon ≡ horizon) }
    ensures closed { (up.new.flow.end ≢ Open) × (down.new.flow.end ≢ Open) }
    ensures up { IfFed result (HasSentRows Up horizon (merge_rows schedules.now) up.new.flow) }
    ensures down { IfFed result (HasSentRows Down horizon (merge_rows schedules.now) down.new.flow) }
    ensures same { IsSameEnd up.old up.new × IsSameEnd down.old down.new }
{
    let mut gates = gates;
    let end = feed_gates(run, schedules, horizon, &mut gates, up, down);
    gates.settle();
    end
}

impl Feeds for Senders {
    ghost use Rattle.sender_merge.specs.Merges.{merge_rows};

    ghost fed_rows = { λ s. merge_rows s };

    fn rows(&self) -> &[Row] {
        self.rows.as_slice()
    }

    fn feed<R: Threads + Wait + Sync>(
        &mut self,
        rt: &R,
        horizon: u64,
        up: &mut Sender,
        down: &mut Sender,
    ) -> FeedEnd {
        let begun = Begun::new(self.threads());
        self.feed_at(rt, horizon, begun, up, down, &NoPace)
    }
}
