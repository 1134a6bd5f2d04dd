// Whoever sends the first item waits for all workers.
ghost use Rattle.std.specs.Prelude.{◌≡◌};
ghost use Rattle.std.specs.Thread.{IsSync};
ghost use Rattle.packet_record.specs.declared.item.FlowEnd.TheVariants.{Open};

use crate::checks::check;
use crate::waiting::give_way;
use crate::ways::open_ways;
use mark_channel::{Begun, Sender};
use packet_record::Item;
use std::alloc::Global;
use std::marker::Sync;
use std::process::Abort;
use std::sync::Wait;
use std::sync::atomic::{AtomicU64, Ordering};
use std::thread::{Threads, join_mut};

// Counts two workers, of which the second one begins late. Whether the wait had ended before.
fn begin_late(begun: &Begun, waited: &AtomicU64) -> bool {
    begun.raise();
    give_way();
    let early = waited.load(Ordering::SeqCst) > 0;
    begun.raise();
    early
}

// Waits for two workers beside a thread in which they begin: whether the wait ended too early, and whether all began.
fn wait_beside<R: Threads + Wait + Sync>(
    rt: &R,
    begun: &Begun,
    waited: &AtomicU64,
    up: &mut Sender,
    down: &mut Sender,
) -> (bool, bool)
    requires { (up.old.flow.end ≡ Open) × (down.old.flow.end ≡ Open) }
{
    join_mut(
        rt,
        &mut || begin_late(begun, waited),
        &mut || -> bool
            requires { (up.now.flow.end ≡ Open) × (down.now.flow.end ≡ Open) × IsSync R.row }
        {
            let all = begun.wait(rt, up, down).is_ok();
            waited.fetch_add(1, Ordering::SeqCst);
            all
        },
    )
}

// Waits for two workers in two channels.
fn wait_for_two<R: Threads + Wait + Sync + Abort>(rt: &R, alloc: Global) -> (bool, bool) {
    let mut ways = open_ways(alloc, 1, 10).expect(rt, "memory");
    let begun = Begun::new(2);
    let waited = AtomicU64::new(0);
    wait_beside(rt, &begun, &waited, &mut ways.up, &mut ways.down)
}

#[test]
fn the_first_sender_waits_for_all_workers(rt: HostRuntime) {
    check(
        &rt,
        wait_for_two(&rt, rt.alloc()) == (false, true),
        "a wait for both workers",
    );
}

// Waits in two channels, in which nothing was sent. Whether all began, and what comes out of both where they didn't.
fn wait_once<R: Wait + Abort>(rt: &R, alloc: Global, begun: &Begun) -> Option<(Item, Item)> {
    let mut ways = open_ways(alloc, 1, 10).expect(rt, "memory");
    if begun.wait(rt, &mut ways.up, &mut ways.down).is_ok() {
        return None;
    }
    Some((ways.up_end.recv(rt), ways.down_end.recv(rt)))
}

const BROKEN: Option<(Item, Item)> = Some((Item::Broken, Item::Broken));

// At the limit both directions are broken off, and at once for whoever waits later, though all have begun then.
#[test]
fn a_wait_at_its_limit_breaks_both_directions_off(rt: HostRuntime) {
    let begun = Begun::with_rests(2, 2);
    begun.raise();
    check(
        &rt,
        wait_once(&rt, rt.alloc(), &begun) == BROKEN,
        "broken off at the limit",
    );
    begun.raise();
    check(
        &rt,
        wait_once(&rt, rt.alloc(), &begun) == BROKEN,
        "broken off after it",
    );
}

#[test]
fn nobody_waits_where_all_have_begun(rt: HostRuntime) {
    let begun = Begun::with_rests(1, 1);
    begun.raise();
    check(
        &rt,
        wait_once(&rt, rt.alloc(), &begun).is_none(),
        "nothing broken off",
    );
}
