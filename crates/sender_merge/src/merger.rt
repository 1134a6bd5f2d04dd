// The thread that merges the flows of a direction.
ghost use Rattle.std.specs.Prelude.{◌≡◌, ◌≢◌, ◌<◌, ◌≤◌, ◌++◌, ℕ, length, IfSome, IfNone, IfOk, OnOk, OnErr};
ghost use Rattle.packet_record.specs.declared.item.FlowEnd.TheVariants.{Open};
ghost use Rattle.packet_record.specs.Streams.{no_items};
ghost use Rattle.mark_channel.specs.Ends.{IsSameEnd};
ghost use Rattle.mark_channel.specs.Feedings.{IfFed};
ghost use Rattle.sender_merge.specs.inside.Inlets.{AllClosed, AllEmpty, AllSame, AllWithin, IsFurther};
ghost use Rattle.sender_merge.specs.inside.Inlets.{IsFurthestBehind, IsMerged};
ghost use Rattle.sender_merge.specs.Inflows.{Merging};
ghost use Rattle.sender_merge.specs.inside.Laws.{SomeOpen};
ghost use Rattle.sender_merge.specs.Steps.{after_step, next_step};
ghost use Rattle.sender_merge.specs.inside.Steps.{given_in};
ghost use Rattle.sender_merge.specs.inside.Thins.{IsThin, Keeps, MaySend};

use crate::inlet::Inlet;
use crate::step::MergeStep;
use crate::thin_merge::ThinMerge;
use mark_channel::{FeedEnd, Sender};
use packet_record::Item;
use std::alloc::Global;
use std::sync::Wait;
use text_base::OutOfMemory;

// Returns the place and the bound of the inlet that is further behind: `least`, the furthest open one so far, or
// `inlet` at `place`, if it is open. If both have the same bound, it is `least`.
fn further_behind(least: Option<(usize, u64)>, place: usize, inlet: &Inlet) -> Option<(usize, u64)>
    ensures some { IfSome result (IsFurther least place inlet.now) }
    ensures none { IfNone result ((least ≡ None) × (inlet.now.from.flow.end ≢ Open)) }
{
    if !inlet.is_open() {
        return least;
    }
    match least {
        Some((_, bound)) if bound <= inlet.reach.bound => least,
        _ => Some((place, inlet.reach.bound)),
    }
}

// Returns the place of the open inlet that is furthest behind: the least by bound, then sender. Returns `None` if none
// is open.
//
// A merge that needs an item is held up by this inlet. The sender that the merge names may be further on, and waiting
// for it could last for ever: it may wait for room in the other direction, whose merge may wait for a sender that waits
// for room in this one.
fn furthest_behind(inlets: &[Inlet]) -> Option<usize>
    ensures within { IfSome result (λ place. place < length inlets.now) }
    ensures furthest { IfSome result (λ place. IsFurthestBehind place inlets.now) }
    ensures none { IfNone result (AllClosed inlets.now) }
{
    let mut least = None;
    for (place, inlet) in inlets.iter().enumerate() {
        least = further_behind(least, place, inlet);
    }
    Some(least?.0)
}

// Receives the next item of the sender that is furthest behind, and adds it to the merge.
fn receive_one<R: Wait>(
    rt: &R,
    core: &mut ThinMerge,
    inlets: &mut [Inlet],
) -> Result<(), OutOfMemory>
    requires few { length inlets.old ≤ 16 }
    requires going { (m : Merging) × Keeps m inlets.old core.old × SomeOpen m.senders }
    ensures added { OnOk result ((m : Merging) → Keeps m inlets.old core.old
        → ((n : Merging) × Keeps n inlets.new core.new × (n.given ≡ m.given))) }
    ensures within { (horizon : ℕ) → AllWithin horizon inlets.old → AllWithin horizon inlets.new }
    ensures same { AllSame inlets.old inlets.new }
{
    let Some(place) = furthest_behind(inlets) else {
        unreachable!()
    };
    let inlet = &mut inlets[place];
    let item = inlet.receive(rt);
    core.add(place as u32 + 1, item)
}

// Takes the next step of the merge, and sends the item that it gives: what was sent is what was given.
fn send_next<R: Wait>(rt: &R, core: &mut ThinMerge, to: &mut Sender) -> MergeStep
    requires few { length core.old.senders.items ≤ 16 }
    requires going { (m : Merging) × MaySend m core.old to.old }
    ensures step { (m : Merging) → IsThin m core.old → result ≡ next_step m }
    ensures after { (m : Merging) → IsThin m core.old → IsThin (after_step m result) core.new }
    ensures alike { (m : Merging) → to.old.flow ≡ m.given → to.new.flow ≡ (after_step m result).given }
    ensures items { to.new.items ≡ to.old.items ++ given_in result }
    ensures same { IsSameEnd to.old to.new }
{
    let step = core.next();
    if let MergeStep::Item(item) = step {
        to.send(rt, item);
    }
    step
}

// Sends the merge of what it receives, to its end. If a sender was broken off, it has sent `Item::Broken` and returns
// `Ok(FeedEnd::OutOfMemory)`. If memory runs out here, it returns `Err`, and its stream is still open.
fn merge_all<R: Wait>(
    rt: &R,
    alloc: Global,
    inlets: &mut [Inlet],
    to: &mut Sender,
) -> Result<FeedEnd, OutOfMemory>
    requires some { 1 ≤ length inlets.old }
    requires few { length inlets.old ≤ 16 }
    requires empty { AllEmpty to.old.horizon inlets.old }
    requires none { to.old.flow ≡ no_items }
    ensures merged { IfOk result (λ end. IfFed end (AllClosed inlets.new × IsMerged inlets.new to.new.flow)) }
    ensures closed { OnOk result (to.new.flow.end ≢ Open) }
    ensures going { OnErr result (to.new.flow.end ≡ Open) }
    ensures same { AllSame inlets.old inlets.new × IsSameEnd to.old to.new }
{
    let mut core = ThinMerge::new(alloc, inlets.len() as u32)?;
    for _ in rt.forever() {
        match send_next(rt, &mut core, to) {
            MergeStep::Need { .. } => receive_one(rt, &mut core, inlets)?,
            MergeStep::Item(Item::Packet(_)) => {}
            MergeStep::Item(Item::Mark(_)) => {}
            MergeStep::Item(Item::End) => return Ok(FeedEnd::Ended),
            MergeStep::Item(Item::Broken) => return Ok(FeedEnd::OutOfMemory),
        }
    }
    unreachable!()
}

// Receives until nothing more comes out of any inlet: a sender whose receiver is gone would wait forever.
fn receive_rest<R: Wait>(rt: &R, inlets: &mut [Inlet])
    ensures closed { AllClosed inlets.new }
    ensures same { AllSame inlets.old inlets.new }
{
    for _ in rt.forever() {
        let Some(place) = furthest_behind(inlets) else {
            return;
        };
        let inlet = &mut inlets[place];
        inlet.receive(rt);
    }
    unreachable!()
}

// Sends the merge of what it receives from 1 to 16 senders. If a sender was broken off or memory runs out, it sends
// `Item::Broken`, receives the rest and returns `OutOfMemory`.
pub(crate) fn merge<R: Wait>(
    rt: &R,
    alloc: Global,
    inlets: &mut [Inlet],
    to: &mut Sender,
) -> FeedEnd
    requires some { 1 ≤ length inlets.old }
    requires few { length inlets.old ≤ 16 }
    requires empty { AllEmpty to.old.horizon inlets.old }
    requires none { to.old.flow ≡ no_items }
    ensures merged { IfFed result (IsMerged inlets.new to.new.flow) }
    ensures closed { AllClosed inlets.new × (to.new.flow.end ≢ Open) }
    ensures same { AllSame inlets.old inlets.new × IsSameEnd to.old to.new }
{
    match merge_all(rt, alloc, inlets, to) {
        Ok(FeedEnd::Ended) => return FeedEnd::Ended,
        Ok(FeedEnd::OutOfMemory) => {}
        Err(OutOfMemory) => to.send(rt, Item::Broken),
    }
    receive_rest(rt, inlets);
    FeedEnd::OutOfMemory
}
