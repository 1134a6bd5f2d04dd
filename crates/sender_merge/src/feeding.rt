// The threads of a feeding: one for each sender, and one for each direction that merges what the senders send.
//
// If no thread can be made, a join runs its second part in the thread that is there, and then its first. So a sender
// may begin after other senders have ended, and a merge after senders or the other merge, but no sender begins after a
// merge.
//
// A merge waits for senders alone. A sender waits until all threads have begun, but not forever. If it sees that they
// have, none of them has ended before, so each has a thread of its own. If it doesn't, it breaks off, and so do all
// senders that wait; their channels have room for that.
ghost use Rattle.std.specs.Prelude.{◌≡◌, ◌≢◌, ◌≤◌, ◌+◌, length};
ghost use Rattle.std.specs.Thread.{IsSync};
ghost use Rattle.packet_record.specs.declared.item.FlowEnd.TheVariants.{Open};
ghost use Rattle.packet_record.specs.Streams.{no_items};
ghost use Rattle.mark_channel.specs.Ends.{IsSameEnd};
ghost use Rattle.mark_channel.specs.Feedings.{IfFed};
ghost use Rattle.sender_merge.specs.inside.Feeding.{both as both_of, SentOrBroken};
ghost use Rattle.sender_merge.specs.inside.Inlets.{AllClosed, AllEmpty, AllSame, IsMerged};
ghost use Rattle.sender_merge.specs.inside.Outlets.{AllEmpty as AllUnsent, AllSameOutlets, AllSentOrBroken, IsEmpty};
ghost use Rattle.sender_merge.specs.inside.Outlets.{IsSameOutlet};

use crate::gates::Gates;
use crate::inlet::Inlet;
use crate::merger::merge;
use crate::outlet::Outlet;
use mark_channel::{FeedEnd, Run, Sender};
use mm_base::Pace;
use packet_record::PackedSchedule;
use std::alloc::Global;
use std::marker::Sync;
use std::sync::Wait;
use std::thread::{Threads, join_mut};

// Sends `schedules` beside each other up to `horizon`, each as one sender, once all senders and merges have begun.
// `sender` is the number of the first one.
pub(crate) fn send_all<Q: Pace + Sync, R: Threads + Wait + Sync>(
    run: &Run<'_, Q, R>,
    sender: u32,
    schedules: &[PackedSchedule],
    horizon: u64,
    outlets: &mut [Outlet],
)
    requires few { sender + length schedules.now ≤ 17 }
    requires long { length schedules.now ≡ length outlets.old }
    requires empty { AllUnsent horizon outlets.old }
    ensures sent { AllSentOrBroken horizon sender schedules.now outlets.new }
    ensures same { AllSameOutlets outlets.old outlets.new }
{
    let Some((outlet, other_outlets)) = outlets.split_first_mut() else {
        return;
    };
    let Some((schedule, others)) = schedules.split_first() else {
        return;
    };
    join_mut(
        run.rt,
        &mut ||
            requires { (sender ≤ 16) × IsEmpty horizon outlet.now × IsSync R.row × IsSync Q.row }
            ensures sent { SentOrBroken horizon sender schedule.entry.now outlet.exit.now }
            ensures same { IsSameOutlet outlet.entry.now outlet.exit.now }
        { outlet.send_begun(run, sender, schedule, horizon) },
        &mut ||
            requires { (sender + 1 + length others.now ≤ 17) × (length others.now ≡ length other_outlets.now)
                × AllUnsent horizon other_outlets.now × IsSync R.row × IsSync Q.row }
            ensures sent { AllSentOrBroken horizon (sender + 1) others.entry.now other_outlets.exit.now }
            ensures same { AllSameOutlets other_outlets.entry.now other_outlets.exit.now }
        { send_all(run, sender + 1, others, horizon, other_outlets) },
    );
}

// Returns how two threads ended together: `Ended` if both did.
fn both(up: FeedEnd, down: FeedEnd) -> FeedEnd
    ensures { result ≡ both_of up down }
{
    match (up, down) {
        (FeedEnd::Ended, down) => down,
        (FeedEnd::OutOfMemory, _) => FeedEnd::OutOfMemory,
    }
}

// Merges both directions beside each other. Each merge counts itself among those that have begun.
pub(crate) fn merge_both<Q: Pace + Sync, R: Threads + Wait + Sync>(
    run: &Run<'_, Q, R>,
    alloc: Global,
    ups: &mut [Inlet],
    downs: &mut [Inlet],
    up: &mut Sender,
    down: &mut Sender,
) -> FeedEnd
    requires some { (1 ≤ length ups.old) × (1 ≤ length downs.old) }
    requires few { (length ups.old ≤ 16) × (length downs.old ≤ 16) }
    requires empty { AllEmpty up.old.horizon ups.old × AllEmpty down.old.horizon downs.old }
    requires none { (up.old.flow ≡ no_items) × (down.old.flow ≡ no_items) }
    ensures merged { IfFed result (IsMerged ups.new up.new.flow × IsMerged downs.new down.new.flow) }
    ensures closed { AllClosed ups.new × AllClosed downs.new }
    ensures over { (up.new.flow.end ≢ Open) × (down.new.flow.end ≢ Open) }
    ensures same { AllSame ups.old ups.new × AllSame downs.old downs.new }
    ensures ends { IsSameEnd up.old up.new × IsSameEnd down.old down.new }
{
    let (up_end, down_end) = join_mut(
        run.rt,
        &mut || -> FeedEnd
            requires { (1 ≤ length ups.now) × (length ups.now ≤ 16) × AllEmpty up.now.horizon ups.now
                × (up.now.flow ≡ no_items) × IsSync R.row × IsSync Q.row }
            ensures merged { IfFed result (IsMerged ups.exit.now up.exit.now.flow) }
            ensures closed { AllClosed ups.exit.now × (up.exit.now.flow.end ≢ Open) }
            ensures same { AllSame ups.entry.now ups.exit.now × IsSameEnd up.entry.now up.exit.now }
        {
            run.begun.raise();
            merge(run.rt, alloc, ups, up)
        },
        &mut || -> FeedEnd
            requires { (1 ≤ length downs.now) × (length downs.now ≤ 16) × AllEmpty down.now.horizon downs.now
                × (down.now.flow ≡ no_items) × IsSync R.row × IsSync Q.row }
            ensures merged { IfFed result (IsMerged downs.exit.now down.exit.now.flow) }
            ensures closed { AllClosed downs.exit.now × (down.exit.now.flow.end ≢ Open) }
            ensures same { AllSame downs.entry.now downs.exit.now × IsSameEnd down.entry.now down.exit.now }
        {
            run.begun.raise();
            merge(run.rt, alloc, downs, down)
        },
    );
    both(up_end, down_end)
}

// Sends `schedules` beside the merges of both directions. Returns how the merges ended. Each channel keeps its ends,
// and nothing more comes out of it.
pub(crate) fn feed_gates<Q: Pace + Sync, R: Threads + Wait + Sync>(
    run: &Run<'_, Q, R>,
    schedules: &[PackedSchedule],
    horizon: u64,
    gates: &mut Gates,
    up: &mut Sender,
    down: &mut Sender,
) -> FeedEnd
    requires few { (1 ≤ length schedules.now) × (length schedules.now ≤ 16) }
    requires long { (length gates.old.outlets.items ≡ length schedules.now)
        × (length gates.old.ups.items ≡ length schedules.now)
        × (length gates.old.downs.items ≡ length schedules.now) }
    requires empty { AllUnsent horizon gates.old.outlets.items × AllEmpty up.old.horizon gates.old.ups.items
        × AllEmpty down.old.horizon gates.old.downs.items }
    requires none { (up.old.flow ≡ no_items) × (down.old.flow ≡ no_items) }
    ensures sent { AllSentOrBroken horizon 1 schedules.now gates.new.outlets.items }
    ensures merged { IfFed result (IsMerged gates.new.ups.items up.new.flow × IsMerged gates.new.downs.items
        down.new.flow) }
    ensures closed { AllClosed gates.new.ups.items × AllClosed gates.new.downs.items }
    ensures over { (up.new.flow.end ≢ Open) × (down.new.flow.end ≢ Open) }
    ensures same_gates { AllSameOutlets gates.old.outlets.items gates.new.outlets.items
        × AllSame gates.old.ups.items gates.new.ups.items × AllSame gates.old.downs.items gates.new.downs.items }
    ensures same { IsSameEnd up.old up.new × IsSameEnd down.old down.new }
{
    let Gates {
        alloc,
        outlets,
        ups,
        downs,
    } = gates;
    let alloc = *alloc;
    // The merges stand first, since they go on only once the senders do.
    let (end, _) = join_mut(
        run.rt,
        &mut || -> FeedEnd
            requires { (1 ≤ length ups.now.items) × (1 ≤ length downs.now.items) × (length ups.now.items ≤ 16)
                × (length downs.now.items ≤ 16) × AllEmpty up.now.horizon ups.now.items
                × AllEmpty down.now.horizon downs.now.items × (up.now.flow ≡ no_items) × (down.now.flow ≡ no_items)
                × IsSync R.row × IsSync Q.row }
            ensures merged { IfFed result (IsMerged ups.exit.now.items up.exit.now.flow
                × IsMerged downs.exit.now.items down.exit.now.flow) }
            ensures closed { AllClosed ups.exit.now.items × AllClosed downs.exit.now.items }
            ensures over { (up.exit.now.flow.end ≢ Open) × (down.exit.now.flow.end ≢ Open) }
            ensures same { AllSame ups.entry.now.items ups.exit.now.items
                × AllSame downs.entry.now.items downs.exit.now.items }
            ensures ends { IsSameEnd up.entry.now up.exit.now × IsSameEnd down.entry.now down.exit.now }
        {
            merge_both(
                run,
                alloc,
                ups.as_mut_slice(),
                downs.as_mut_slice(),
                up,
                down,
            )
        },
        &mut ||
            requires { (length schedules.now ≤ 16) × (length schedules.now ≡ length outlets.now.items)
                × AllUnsent horizon outlets.now.items × IsSync R.row × IsSync Q.row }
            ensures sent { AllSentOrBroken horizon 1 schedules.entry.now outlets.exit.now.items }
            ensures same { AllSameOutlets outlets.entry.now.items outlets.exit.now.items }
        { send_all(run, 1, schedules, horizon, outlets.as_mut_slice()) },
    );
    end
}
