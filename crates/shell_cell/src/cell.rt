// A cell: the lock around a shell's state, and the calls that each seat may make.
ghost use Rattle.std.specs.Prelude.{◌≡◌, ℕ, [], false, IfOk};
ghost use Rattle.packet_record.specs.Streams.{no_items};
ghost use Rattle.shell_state.specs.declared.taken.Taken.TheVariants.{NotYet};

use crate::rule::Part;
use crate::turns::TurnTable;
use crate::view::{Call, DrainCall};
use crate::{DrainSeat, FeedSeat};
use atomic_table::Table;
use mark_channel::bell::{Bell, Ringer};
use packet_record::Item;
use shell_state::{ShellState, Taken};
use std::alloc::Global;
use std::marker::{Brand, Model};
use std::snapshot::Snapshot;
use std::sync::Wait;
use text_base::OutOfMemory;

// After this number of feeds a waiting drain is woken.
const BATCH: u32 = 256;

/// A shell's state under a lock. Contracts see which cell it is, and the state that it was opened with.
#[derive(Drop)]
pub struct ShellCell {
    pub(crate) turns: TurnTable,
}

impl Model for ShellCell {
    ghost use Rattle.shell_cell.specs.Seats.{Cell};

    ghost Value = { Cell };

    ghost use Rattle.shell_cell.specs.views.Sides.{cell_view};

    ghost view = { cell_view };
}

/// Opens a cell over a state that nothing was fed to or taken from. Returns the cell with its two seats, which have
/// spent no turn and know of no broken state.
///
/// All memory of the lock is allocated here. If an allocation fails, it returns `OutOfMemory`, and the state is lost.
pub fn open(
    alloc: Global,
    state: ShellState,
) -> Result<(ShellCell, FeedSeat, DrainSeat), OutOfMemory>
    requires fed { state.fed ≡ no_items }
    requires taken { state.taken ≡ no_items }
    ensures opening { IfOk result (λ r. r.0.opening ≡ state) }
    ensures cells { IfOk result (λ r. (r.1.cell ≡ r.0) × (r.2.cell ≡ r.0)) }
    ensures horizons { IfOk result (λ r. (r.1.horizon ≡ state.horizon) × (r.2.horizon ≡ state.horizon)) }
    ensures turns { IfOk result (λ r. (r.1.turns ≡ []) × (r.2.turns ≡ [])) }
    ensures flows { IfOk result (λ r. (r.1.flow ≡ no_items) × (r.2.flow ≡ no_items)) }
    ensures broken { IfOk result (λ r. (r.1.broken ≡ false) × (r.2.broken ≡ false)) }
{
    let key = Snapshot::of(&state);
    let mut slots = Vec::new(alloc);
    slots.push(state)?;
    let Ok((table, mut seat)) = Table::new(alloc, &[0], slots, &key) else {
        return Err(OutOfMemory);
    };
    let drain = table.shared.split_seat::<Part>(&mut seat);
    let cell = ShellCell {
        turns: TurnTable::new(table),
    };
    let taking = DrainSeat {
        seat: drain,
        seen: 0,
    };
    let feeding = FeedSeat {
        seat,
        ringer: Ringer::new(BATCH),
    };
    Ok((cell, feeding, taking))
}

// Returns the turn word that a seat keeps, which kept `seen` before: `word` if there was nothing to take.
fn seen_after(answer: Taken, seen: u64, word: u64) -> u64
    ensures waits { (bound : ℕ) → answer ≡ NotYet bound → result ≡ word }
{
    match answer {
        Taken::NotYet { .. } => word,
        Taken::Item(_) | Taken::Again { .. } => seen,
    }
}

// Rings after `item` was fed, at once if it is the last.
fn ring_for(ringer: &mut Ringer, fed: &Bell, item: &Item) {
    match item {
        Item::Packet(_) | Item::Mark(_) => ringer.add(fed),
        Item::End | Item::Broken => ringer.end(fed),
    }
}

impl ShellCell {
    ghost use Rattle.std.specs.Prelude.{◌≡◌, ◌≤◌, ◌⊎◌, true, false, OnOk, OnErr, IfOk, IsOk};
    ghost use Rattle.packet_record.specs.declared.item.FlowEnd.TheVariants.{Open};
    ghost use Rattle.packet_record.specs.declared.item.Item.TheVariants.{Broken};
    ghost use Rattle.packet_record.specs.Streams.{IsUpTo};
    ghost use Rattle.packet_record.specs.Takes.{IsPacket};
    ghost use Rattle.shell_state.specs.Standing.{Stands};
    ghost use Rattle.shell_state.specs.declared.taken.Taken.TheVariants.{Item as Gives};
    ghost use Rattle.shell_cell.specs.declared.view.DrainCall.TheVariants.{Takes, Breaks};
    ghost use Rattle.shell_cell.specs.Seats.{MayFeedAt, SpendsFeed, FindsBroken, Fed, SpendsDrain, Found, Took};
    ghost use Rattle.shell_cell.specs.Seats.{IsSameSeat, HasHistory};

    /// Waits for the turn and feeds the item, which spends the turn.
    ///
    /// The item may follow what the seat has fed, unless the seat has found the state broken, and is within the
    /// horizon: a packet up to it, a mark up to one millisecond past it. On a broken state it returns Ok and spends no
    /// turn, and nothing changes but that the seat has now found the state broken.
    ///
    /// `OutOfMemory` is returned only for a packet, and never once the seat has found the state broken. The state and
    /// the seat are then as they were.
    pub fn feed<R: Wait>(&self, rt: &R, seat: &mut FeedSeat, item: Item) -> Result<(), OutOfMemory>
        requires own { seat.old.cell ≡ self.now }
        requires follows { MayFeedAt seat.old item }
        requires within { IsUpTo seat.old.horizon item }
        ensures turn { OnOk result (SpendsFeed seat.old item seat.new ⊎ FindsBroken seat.old seat.new) }
        ensures fed { OnOk result (Fed seat.old item seat.new) }
        ensures broken { seat.old.broken ≡ true → IsOk result × FindsBroken seat.old seat.new }
        ensures err { OnErr result (seat.new ≡ seat.old) }
        ensures only_packets { OnErr result (IsPacket item) }
        ensures breaks { item ≡ Broken → IsOk result }
        ensures same { IsSameSeat seat.old seat.new }
    {
        let word = self.turns.claim(rt, &mut seat.seat);
        let state = seat.seat.slot_mut(&self.turns.table.shared, 0);
        if state.is_broken() {
            self.turns.give_up(&mut seat.seat, word);
            return Ok(());
        }
        match state.feed(item) {
            Ok(()) => {
                let call = Call::Feeds(item);
                self.turns.spend::<Brand>(&mut seat.seat, word, call);
                ring_for(&mut seat.ringer, &self.turns.fed, &item);
                Ok(())
            }
            Err(_) => {
                self.turns.give_up(&mut seat.seat, word);
                Err(OutOfMemory)
            }
        }
    }

    /// Waits for the turn and takes what the state has to give, which spends the turn. It burns at most `most`
    /// opportunities, at least 1.
    ///
    /// Nothing is taken after `End` or `Broken`. A seat that has found the state broken gets `Broken`. If an allocation
    /// fails, it returns `OutOfMemory`, and the state and the seat are as they were; that never happens once the seat
    /// has found the state broken.
    pub fn take<R: Wait>(
        &self,
        rt: &R,
        seat: &mut DrainSeat,
        most: u32,
    ) -> Result<Taken, OutOfMemory>
        requires own { seat.old.cell ≡ self.now }
        requires most { 1 ≤ most }
        requires open { seat.old.flow.end ≡ Open }
        ensures turn { IfOk result (λ answer. SpendsDrain seat.old (Takes most answer) seat.new) }
        ensures found { IfOk result (λ answer. Found seat.old most answer seat.new) }
        ensures took { IfOk result (λ answer. Took seat.old answer seat.new) }
        ensures broken { seat.old.broken ≡ true → result ≡ Ok (Gives Broken) }
        ensures keeps { seat.old.broken ≡ true → seat.new.broken ≡ true }
        ensures err { OnErr result (seat.new ≡ seat.old) }
        ensures same { IsSameSeat seat.old seat.new }
    {
        let word = self.turns.claim(rt, &mut seat.seat);
        let state = seat.seat.slot_mut(&self.turns.table.shared, 0);
        state.stands(); // fact: the state is sound, so that a take has its causes
        match state.take(most) {
            Ok(answer) => {
                let call = Call::Drains(DrainCall::Takes(most, answer));
                self.turns.spend::<Brand>(&mut seat.seat, word, call);
                seat.seen = seen_after(answer, seat.seen, word + 1);
                Ok(answer)
            }
            Err(_) => {
                self.turns.give_up(&mut seat.seat, word);
                Err(OutOfMemory)
            }
        }
    }

    /// Waits for the turn and breaks the state, which spends the turn. It takes no memory.
    pub fn break_off<R: Wait>(&self, rt: &R, seat: &mut DrainSeat)
        requires own { seat.old.cell ≡ self.now }
        ensures turn { SpendsDrain seat.old Breaks seat.new }
        ensures flow { seat.new.flow ≡ seat.old.flow }
        ensures broken { seat.new.broken ≡ true }
        ensures same { IsSameSeat seat.old seat.new }
    {
        let word = self.turns.claim(rt, &mut seat.seat);
        let state = seat.seat.slot_mut(&self.turns.table.shared, 0);
        state.break_off();
        self.turns
            .spend::<Brand>(&mut seat.seat, word, Call::Drains(DrainCall::Breaks));
    }

    /// Waits until a feed has ended since the seat's last take, if that take returned `NotYet`. It may return early,
    /// and takes no memory.
    pub fn wait<R: Wait>(&self, rt: &R, seat: &mut DrainSeat)
        requires own { seat.old.cell ≡ self.now }
        ensures same { seat.new ≡ seat.old }
    {
        self.turns.wait_past(rt, seat.seen);
    }

    /// Returns the state, given both seats. It is what the history of their turns leaves of the state that the cell was
    /// opened with, and its streams are those of the seats. It takes no memory.
    pub fn close(self, feed: FeedSeat, drain: DrainSeat) -> ShellState
        requires own { (feed.cell ≡ self) × (drain.cell ≡ self) }
        ensures history { HasHistory self.opening feed.turns drain.turns result }
        ensures fed { result.fed ≡ feed.flow }
        ensures taken { result.taken ≡ drain.flow }
        ensures horizon { result.horizon ≡ self.opening.horizon }
        ensures spec { result.spec ≡ self.opening.spec }
        ensures broken { (feed.broken ≡ true) ⊎ (drain.broken ≡ true) → result.broken ≡ true }
        ensures stands { Stands result }
    {
        let ShellCell { turns } = self;
        let TurnTable {
            table,
            sleepers: _,
            fed: _,
        } = turns;
        let FeedSeat {
            seat: mut whole,
            ringer: _,
        } = feed;
        let DrainSeat { seat, seen: _ } = drain;
        table.shared.join_seat::<Part>(&mut whole, seat);
        let mut closed = table.close_with(whole);
        let state = closed.take(0);
        closed.free();
        state.stands(); // fact: the state is sound
        state
    }
}
