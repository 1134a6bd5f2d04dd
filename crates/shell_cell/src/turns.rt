// The turn of a cell: how a seat takes it, and gives it back.
ghost use Rattle.std.specs.Prelude.{◌≡◌, ◌+◌, ◌%◌, ◌<◌, ◌^◌, ◌⊎◌, [], None, IsTrue, IfSome, IfNone};
ghost use Rattle.shell_cell.specs.declared.view.SeatRole.TheVariants.{Feeder, Drain};
ghost use Rattle.shell_cell.specs.inside.Rule.{HasTaken, IsDone, IsUndone, IsAbove, number_in, with_turn, without_note};

use crate::rule::{Claim, GiveUp, Opening, Slot, Spend, Spending, Turns};
use crate::view::{Call, View};
use atomic_table::{Seat, Table};
use mark_channel::bell::{Bell, LOOKS, pause};
use std::alloc::Global;
use std::sync::Wait;
use std::sync::atomic::{AtomicU64, Ordering};

/// The table of a cell. Word 0 is the turn: twice the number of turns that were spent, plus 1 while a seat has the
/// turn. Slot 0 is the state, which the seat that has the turn holds.
#[derive(Drop)]
pub struct TurnTable {
    pub(crate) table: Table<Slot, View, Opening, Turns, Global>,
    // How many threads sleep until the turn is given back, or are about to.
    pub(crate) sleepers: AtomicU64,
    // The bell at which the drain sleeps until something was fed.
    pub(crate) fed: Bell,
    ghost sized: { (table.shared.table_id.words ≡ 1) × (table.shared.table_id.slots ≡ 1) },
}

// Returns whether the turn is free, by its word. After the last turn that the word can count it is never free.
fn is_free(word: u64) -> bool
    ensures { IsTrue result → (word % 2 ≡ 0) × (word + 2 < 2 ^ 64) }
{
    word % 2 == 0 && word < u64::MAX - 1
}

impl TurnTable {
    // The table of a cell at which nobody sleeps.
    pub(crate) fn new(table: Table<Slot, View, Opening, Turns, Global>) -> TurnTable
        requires { (table.shared.table_id.words ≡ 1) × (table.shared.table_id.slots ≡ 1) }
        ensures { result.table ≡ table }
    {
        TurnTable {
            table,
            sleepers: AtomicU64::new(0),
            fed: Bell::new(),
        }
    }

    // Waits for the turn, and takes it with the state's slot. Returns the word, which is then odd. It sleeps after
    // `LOOKS` looks, until the turn is given back. After 2^63 - 1 turns it waits forever.
    pub(crate) fn claim<R: Wait>(&self, rt: &R, seat: &mut Seat<Slot, View>) -> u64
        requires own { seat.old.table_id ≡ self.now.table.shared.table_id }
        requires role { (seat.old.me.0.role ≡ Feeder) ⊎ (seat.old.me.0.role ≡ Drain) }
        requires carries { seat.old.me.1 ≡ [] }
        ensures own { (seat.new.table_id ≡ seat.old.table_id) × (seat.new.id ≡ seat.old.id) }
        ensures word { result + 1 < 2 ^ 64 }
        ensures taken { HasTaken seat.old.me result seat.new.me }
    {
        for look in 0..LOOKS {
            if let Some(word) = self.claim_at_once(seat) {
                return word;
            }
            pause(look);
        }
        for _ in rt.forever() {
            if let Some(word) = self.claim_at_once(seat) {
                return word;
            }
            self.sleep_while_taken(rt);
        }
        unreachable!()
    }

    // Takes the turn with the state's slot if it is free, and returns the word. Otherwise returns `None`.
    fn claim_at_once(&self, seat: &mut Seat<Slot, View>) -> Option<u64>
        requires own { seat.old.table_id ≡ self.now.table.shared.table_id }
        requires role { (seat.old.me.0.role ≡ Feeder) ⊎ (seat.old.me.0.role ≡ Drain) }
        requires carries { seat.old.me.1 ≡ [] }
        ensures own { (seat.new.table_id ≡ seat.old.table_id) × (seat.new.id ≡ seat.old.id) }
        ensures taken { IfSome result (λ word. (word + 1 < 2 ^ 64) × HasTaken seat.old.me word seat.new.me) }
        ensures kept { IfNone result (seat.new.me ≡ seat.old.me) }
    {
        let shared = &self.table.shared;
        let word = shared.peek(0);
        if !is_free(word) {
            return None;
        }
        let found = shared.compare_exchange::<Claim>(seat, 0, word, word + 1);
        if found != word {
            return None;
        }
        Some(word + 1)
    }

    // Sleeps while the turn is taken. It may return early.
    fn sleep_while_taken<R: Wait>(&self, rt: &R) {
        let word = self.table.shared.peek(0);
        if !is_free(word) {
            self.sleep_at(rt, word);
        }
    }

    // Waits until the word is neither `seen` nor `seen + 1`, which is a turn that isn't spent yet. If it must wait, it
    // sleeps without further looks, since the feeder waits for no room, however much it feeds meanwhile. A sleep ends
    // once the feeder has fed a batch or the last item, and otherwise by itself, after 1 to 64 milliseconds.
    pub(crate) fn wait_past<R: Wait>(&self, rt: &R, seen: u64) {
        for _ in rt.forever() {
            let heard = self.fed.listen();
            if self.is_past(seen) {
                self.fed.leave();
                return;
            }
            self.fed.sleep(rt, heard);
        }
        unreachable!()
    }

    // Returns whether the word is neither `seen` nor `seen + 1`.
    fn is_past(&self, seen: u64) -> bool {
        self.table.shared.peek(0).wrapping_sub(seen) > 1
    }

    // Sleeps while the word is `word`, until the turn is given back. It may return early.
    //
    // No wake is lost. The count is raised before the system compares the word, and the thread that gives the turn back
    // stores the word before it reads the count. So it sees this sleeper and wakes it, or the word has changed before
    // the sleep begins. Each sleeper lowers the count itself, once it is awake. A flag that is cleared with a wake
    // would lose one: a turn that is taken and given up leaves the word as it was, so a wake between the mark of a
    // sleeper and its sleep wakes nobody, the sleep begins, and the thread that spends the next turn finds the flag
    // cleared.
    fn sleep_at<R: Wait>(&self, rt: &R, word: u64) {
        self.sleepers.fetch_add(1, Ordering::SeqCst);
        self.table.shared.park(rt, 0, (word % (1 << 32)) as u32);
        self.sleepers.fetch_sub(1, Ordering::SeqCst);
    }

    // Wakes all who sleep, if anyone does.
    fn wake_sleepers(&self) {
        if self.sleepers.load(Ordering::SeqCst) > 0 {
            self.table.shared.wake_all(0);
        }
    }

    // Gives the turn back, spent on a call. The call is for the proof alone.
    pub(crate) fn spend<J: Spending>(&self, seat: &mut Seat<Slot, View>, word: u64, _call: Call)
        requires own { seat.old.table_id ≡ self.now.table.shared.table_id }
        requires word { word + 1 < 2 ^ 64 }
        requires call { J.call ≡ _call }
        requires spends { IsDone _call seat.old.me word }
        ensures own { (seat.new.table_id ≡ seat.old.table_id) × (seat.new.id ≡ seat.old.id) }
        ensures spent { seat.new.me ≡ (with_turn seat.old.me.0 _call, []) }
        ensures above { IsAbove seat.old.me.0 (number_in seat.old.me.0.note) }
    {
        self.table.shared.store::<Spend<J>>(seat, 0, word + 1);
        self.wake_sleepers();
    }

    // Gives the turn back, with the state as it was found.
    pub(crate) fn give_up(&self, seat: &mut Seat<Slot, View>, word: u64)
        requires own { seat.old.table_id ≡ self.now.table.shared.table_id }
        requires gives { IsUndone seat.old.me word }
        ensures own { (seat.new.table_id ≡ seat.old.table_id) × (seat.new.id ≡ seat.old.id) }
        ensures given { seat.new.me ≡ (without_note seat.old.me.0, []) }
    {
        self.table.shared.store::<GiveUp>(seat, 0, word - 1);
        self.wake_sleepers();
    }
}
