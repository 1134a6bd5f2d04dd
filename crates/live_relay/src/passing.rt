// Lets items pass shells: each shell is fed what was taken from the one before it, and then taken from until it rests.
ghost use Rattle.std.specs.Prelude.{◌≡◌, ◌≤◌, false, List, length, IfOk, OnOk};
ghost use Rattle.std.specs.Bool.{OnTrue, OnFalse};
ghost use Rattle.packet_record.specs.declared.packet.Timed.{Timed as TimedValue};
ghost use Rattle.packet_record.specs.declared.item.FlowEnd.TheVariants.{Open};
ghost use Rattle.packet_record.specs.Streams.{after, after_all, AllFollow, MayFollow, IsUpTo};
ghost use Rattle.shell_state.specs.Causes.{Waits};
ghost use Rattle.shell_state.specs.Steps.{breaks};
ghost use Rattle.live_relay.specs.Lines.{IsFront};
ghost use Rattle.live_relay.specs.inside.Meeting.{Caught, Follow, Grows, IsSameShell, IsSound, Meet, TakesFewer};
ghost use Rattle.live_relay.specs.inside.Meeting.{goes_on, packet_items};
ghost use Rattle.live_relay.specs.views.Meeting.{fed_of, last_taken, specs_of};

use packet_record::{FlowEnd, Item, Timed};
use shell_state::{ShellState, Taken};
use text_base::OutOfMemory;

// The most opportunities that one take burns.
const MOST: u32 = 256;

// Returns whether there may be more to take after `taken`.
fn goes_on(taken: Taken) -> bool
    ensures { result ≡ goes_on taken }
{
    match taken {
        Taken::Item(Item::Packet(_) | Item::Mark(_)) | Taken::Again { .. } => true,
        Taken::Item(Item::End | Item::Broken) | Taken::NotYet { .. } => false,
    }
}

// Takes once, and returns whether there may be more to take.
fn take_once(state: &mut ShellState) -> Result<bool, OutOfMemory>
    requires whole { state.old.broken ≡ false }
    requires going { state.old.taken.end ≡ Open }
    ensures same { IsSameShell state.old state.new }
    ensures fed { state.new.fed ≡ state.old.fed }
    ensures grows { OnOk result (Grows state.old.taken state.new.taken) }
    ensures more { IfOk result (λ more. OnTrue more (TakesFewer state.old state.new)) }
    ensures done { IfOk result (λ more. OnFalse more (state.new.taken.end ≡ Open → Waits state.new)) }
{
    state.stands(); // fact: the state is sound
    let taken = state.take(MOST)?;
    Ok(goes_on(taken))
}

// Takes until nothing can be taken before more is fed.
fn take_all(state: &mut ShellState) -> Result<(), OutOfMemory>
    requires whole { state.old.broken ≡ false }
    requires going { state.old.taken.end ≡ Open }
    ensures same { IsSameShell state.old state.new }
    ensures fed { state.new.fed ≡ state.old.fed }
    ensures grows { OnOk result (Grows state.old.taken state.new.taken) }
    ensures waits { OnOk result (state.new.taken.end ≡ Open → Waits state.new) }
{
    'takes: while take_once(state)? {}
    Ok(())
}

// Feeds the packets.
fn feed_packets(state: &mut ShellState, packets: &[Timed]) -> Result<(), OutOfMemory>
    requires whole { state.old.broken ≡ false }
    requires follow { AllFollow state.old.horizon state.old.fed (packet_items packets.now) }
    ensures same { OnOk result (IsSameShell state.old state.new) }
    ensures taken { OnOk result (state.new.taken ≡ state.old.taken) }
    ensures fed { OnOk result (state.new.fed ≡ after_all state.old.fed (packet_items packets.now)) }
{
    for packet in packets {
        state.feed(Item::Packet(*packet))?;
    }
    Ok(())
}

// Feeds what was taken from the shell before and wasn't fed yet, but for an end.
fn feed_rest(state: &mut ShellState, before: &ShellState) -> Result<(), OutOfMemory>
    requires grows { Grows state.old.fed before.now.taken }
    requires whole { state.old.broken ≡ false }
    requires horizon { before.now.horizon ≡ state.old.horizon }
    ensures { OnOk result (Caught state.old before.now state.new) }
{
    before.stands(); // fact: what was taken may be fed to the next shell
    let taken = before.taken();
    let fed = state.fed().packets().len();
    feed_packets(state, &taken.packets()[fed..])?;
    state.feed(Item::Mark(taken.bound()))
}

// Feeds what was taken from the shell before and wasn't fed yet.
fn feed_from(state: &mut ShellState, before: &ShellState) -> Result<(), OutOfMemory>
    requires grows { Grows state.old.fed before.now.taken }
    requires whole { (state.old.broken ≡ false) × (before.now.broken ≡ false) }
    requires horizon { before.now.horizon ≡ state.old.horizon }
    ensures same { OnOk result (IsSameShell state.old state.new) }
    ensures taken { OnOk result (state.new.taken ≡ state.old.taken) }
    ensures fed { OnOk result (state.new.fed ≡ before.now.taken) }
{
    before.stands(); // fact: what was taken may be fed to the next shell
    feed_rest(state, before)?;
    if before.taken().end() == FlowEnd::Ended {
        return state.feed(Item::End);
    }
    Ok(())
}

// Feeds each shell what was taken from the one before it, the first from `before`, and takes from each until it rests.
pub(crate) fn pass_on(
    _horizon: u64,
    before: &ShellState,
    states: &mut [ShellState],
) -> Result<(), OutOfMemory>
    requires before { IsSound _horizon before.now }
    requires follow { Follow _horizon before.now.taken states.old }
    ensures meet { OnOk result (Meet _horizon before.now.taken states.new) }
    ensures specs { OnOk result (specs_of states.new ≡ specs_of states.old) }
    ensures departed { OnOk result ((old : List TimedValue) → IsFront old before.now.taken.packets
        → IsFront (last_taken old states.old) (last_taken before.now.taken.packets states.new)) }
{
    let Some((first, rest)) = states.split_first_mut() else {
        return Ok(());
    };
    feed_from(first, before)?;
    take_all(first)?;
    first.stands(); // fact: the state is sound
    pass_on(_horizon, first, rest)
}

// Feeds `item` to the first shell, and to the others what comes of it.
pub(crate) fn advance(
    _horizon: u64,
    states: &mut [ShellState],
    item: Item,
) -> Result<(), OutOfMemory>
    requires some { 1 ≤ length states.old }
    requires follow { Follow _horizon (fed_of states.old) states.old }
    requires item { MayFollow (fed_of states.old) item × IsUpTo _horizon item }
    requires whole { breaks item ≡ false }
    ensures meet { OnOk result (Meet _horizon (after (fed_of states.old) item) states.new) }
    ensures some { length states.new ≡ length states.old }
    ensures specs { OnOk result (specs_of states.new ≡ specs_of states.old) }
    ensures departed { OnOk result (IsFront (last_taken (fed_of states.old).packets states.old)
        (last_taken (after (fed_of states.old) item).packets states.new)) }
{
    let Some((first, rest)) = states.split_first_mut() else {
        return Ok(());
    };
    first.feed(item)?;
    take_all(first)?;
    first.stands(); // fact: the state is sound
    pass_on(_horizon, first, rest)
}
