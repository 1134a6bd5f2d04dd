// One thread at both seats: the answers are those of the state alone for these calls, and so is what is left.
ghost use Rattle.std.specs.Prelude.{◌≡◌};
ghost use Rattle.std.specs.Bool.{OnTrue};
ghost use Rattle.packet_record.specs.declared.item.FlowEnd.TheVariants.{Open};
ghost use Rattle.packet_record.specs.Streams.{IsUpTo, no_items};
ghost use Rattle.shell_cell.specs.Seats.{Fed, IsSameSeat, MayFeedAt};

use super::{close, delay, feed_to, link, seat, take_from};
use crate::checks::check;
use crate::packets::timed;
use packet_record::{FlowEnd, Item, Packet, Timed};
use shell_cell::{DrainSeat, FeedSeat, ShellCell};
use shell_state::{ShellState, Taken};
use std::alloc::Global;
use std::process::Abort;
use std::sync::Wait;

// Whether a take that burns one opportunity at most returns this. False at the end.
fn takes<R: Wait + Abort>(rt: &R, cell: &ShellCell, seat: &mut DrainSeat, answer: Taken) -> bool
    requires own { seat.old.cell ≡ cell.now }
    requires open { seat.old.flow.end ≡ Open }
    ensures open { OnTrue result (seat.new.flow.end ≡ Open) }
    ensures same { IsSameSeat seat.old seat.new }
{
    let taken = take_from(rt, cell, seat, 1).expect(rt, "memory");
    match taken {
        Taken::Item(Item::End | Item::Broken) => false,
        Taken::Item(Item::Packet(_) | Item::Mark(_)) => taken == answer,
        Taken::Again { .. } | Taken::NotYet { .. } => taken == answer,
    }
}

// Whether such takes answer these, none of which is the end.
fn takes_each<R: Wait + Abort>(
    rt: &R,
    cell: &ShellCell,
    seat: &mut DrainSeat,
    answers: &[Taken],
) -> bool
    requires own { seat.old.cell ≡ cell.now }
    requires open { seat.old.flow.end ≡ Open }
    ensures open { OnTrue result (seat.new.flow.end ≡ Open) }
    ensures same { IsSameSeat seat.old seat.new }
{
    for answer in answers {
        if !takes(rt, cell, seat, *answer) {
            return false;
        }
    }
    true
}

// Feeds an item. Whether takes answer these then.
fn takes_after<R: Wait + Abort>(
    rt: &R,
    cell: &ShellCell,
    feed: &mut FeedSeat,
    drain: &mut DrainSeat,
    item: Item,
    answers: &[Taken],
) -> bool
    requires own { (feed.old.cell ≡ cell.now) × (drain.old.cell ≡ cell.now) }
    requires follows { MayFeedAt feed.old item }
    requires within { IsUpTo feed.old.horizon item }
    requires open { drain.old.flow.end ≡ Open }
    ensures fed { Fed feed.old item feed.new }
    ensures open { OnTrue result (drain.new.flow.end ≡ Open) }
    ensures same { IsSameSeat feed.old feed.new × IsSameSeat drain.old drain.new }
{
    feed_to(rt, cell, feed, item).expect(rt, "memory");
    takes_each(rt, cell, drain, answers)
}

// What the link gives before anything is fed.
const FRESH: [Taken; 2] = [Taken::Item(Item::Mark(5)), Taken::NotYet { bound: 0 }];

// What it gives after a mark at 7, then after a packet at 9, and then after the end, but for its own end.
const MARKED: [Taken; 3] = [
    Taken::Again { burnt: 1 },
    Taken::Item(Item::Mark(9)),
    Taken::NotYet { bound: 7 },
];

const PACKET_FED: [Taken; 1] = [Taken::Item(Item::Mark(14))];

const ENDED: [Taken; 2] = [
    Taken::Item(Item::Packet(Timed {
        moment: 14,
        packet: Packet { id: 1, size: 100 },
    })),
    Taken::Item(Item::Mark(18)),
];

// Whether a take returns an item that is the last.
fn takes_last<R: Wait + Abort>(rt: &R, cell: &ShellCell, seat: &mut DrainSeat, last: Item) -> bool
    requires own { seat.old.cell ≡ cell.now }
    requires open { seat.old.flow.end ≡ Open }
    ensures same { IsSameSeat seat.old seat.new }
{
    take_from(rt, cell, seat, 1).expect(rt, "memory") == Taken::Item(last)
}

// Whether a mark, a packet and the end pass the link.
fn pass_one<R: Wait + Abort>(
    rt: &R,
    cell: &ShellCell,
    feed: &mut FeedSeat,
    drain: &mut DrainSeat,
) -> bool
    requires own { (feed.old.cell ≡ cell.now) × (drain.old.cell ≡ cell.now) }
    requires fresh { (feed.old.flow ≡ no_items) × (drain.old.flow.end ≡ Open) }
    requires horizon { feed.old.horizon ≡ 20 }
    ensures same { IsSameSeat feed.old feed.new × IsSameSeat drain.old drain.new }
{
    takes_each(rt, cell, drain, &FRESH)
        && takes_after(rt, cell, feed, drain, Item::Mark(7), &MARKED)
        && takes_after(
            rt,
            cell,
            feed,
            drain,
            Item::Packet(timed(1, 9)),
            &PACKET_FED,
        )
        && takes_after(rt, cell, feed, drain, Item::End, &ENDED)
        && takes_last(rt, cell, drain, Item::End)
}

// How many lines the log has of a state that was taken to its end.
fn count_lines(rt: &impl Abort, state: &ShellState) -> usize {
    assert!(rt; state.taken().end() == FlowEnd::Ended);
    let log = state.log().expect(rt, "memory").expect(rt, "a log");
    log.into_log().expect(rt, "memory").entries().len()
}

// One packet has passed and none was lost, all was fed that is, and the log has its lines.
fn has_passed_one(rt: &impl Abort, state: &ShellState) -> bool {
    let taken = state.taken();
    taken.packets().len() == 1
        && taken.bound() == 18
        && state.lost().is_empty()
        && state.fed().end() == FlowEnd::Ended
        && count_lines(rt, state) == 8
}

// What is left of the link after them.
fn passed_one<R: Wait + Abort>(rt: &R, alloc: Global) -> ShellState {
    let mut seated = seat(rt, alloc, link(rt, alloc));
    let passed = pass_one(rt, &seated.cell, &mut seated.feed, &mut seated.drain);
    check(rt, passed, "the answers of the link");
    close(seated)
}

#[test]
fn answers_as_the_state_alone(rt: HostRuntime) {
    let state = passed_one(&rt, rt.alloc());
    check(
        &rt,
        has_passed_one(&rt, &state),
        "one packet that has passed",
    );
}

// Breaks the state off, and feeds, which changes nothing then. Whether a take gives that.
fn break_it<R: Wait + Abort>(
    rt: &R,
    cell: &ShellCell,
    feed: &mut FeedSeat,
    drain: &mut DrainSeat,
) -> bool
    requires own { (feed.old.cell ≡ cell.now) × (drain.old.cell ≡ cell.now) }
    requires fresh { (feed.old.flow ≡ no_items) × (drain.old.flow.end ≡ Open) }
    requires horizon { feed.old.horizon ≡ 2000 }
    ensures same { IsSameSeat feed.old feed.new × IsSameSeat drain.old drain.new }
{
    cell.break_off(rt, drain);
    feed_to(rt, cell, feed, Item::Mark(7)).expect(rt, "memory");
    feed_to(rt, cell, feed, Item::Broken).expect(rt, "memory");
    takes_last(rt, cell, drain, Item::Broken)
}

// What is left of a delay that was broken off.
fn broken<R: Wait + Abort>(rt: &R, alloc: Global) -> ShellState {
    let mut seated = seat(rt, alloc, delay(rt, alloc));
    let given = break_it(rt, &seated.cell, &mut seated.feed, &mut seated.drain);
    check(rt, given, "a take that gives that it is broken off");
    close(seated)
}

// Whether a state is broken, though nothing was fed that says so.
fn is_broken_off(state: &ShellState) -> bool {
    state.is_broken()
        && state.fed().end() == FlowEnd::Open
        && state.taken().end() == FlowEnd::Broken
}

#[test]
fn a_broken_cell_stays_broken(rt: HostRuntime) {
    check(
        &rt,
        is_broken_off(&broken(&rt, rt.alloc())),
        "a broken state",
    );
}

const BURNT: [Taken; 1] = [Taken::Again { burnt: 1 }];

// Waits after each feed, where nothing was taken since. Whether the takes answer as they should.
fn wait_after_feeds<R: Wait + Abort>(
    rt: &R,
    cell: &ShellCell,
    feed: &mut FeedSeat,
    drain: &mut DrainSeat,
) -> bool
    requires own { (feed.old.cell ≡ cell.now) × (drain.old.cell ≡ cell.now) }
    requires fresh { (feed.old.flow ≡ no_items) × (drain.old.flow.end ≡ Open) }
    requires horizon { feed.old.horizon ≡ 20 }
    ensures same { IsSameSeat feed.old feed.new × IsSameSeat drain.old drain.new }
{
    if !takes_each(rt, cell, drain, &FRESH) {
        return false;
    }
    feed_to(rt, cell, feed, Item::Mark(7)).expect(rt, "memory");
    cell.wait(rt, drain);
    if !takes_each(rt, cell, drain, &BURNT) {
        return false;
    }
    feed_to(rt, cell, feed, Item::End).expect(rt, "memory");
    cell.wait(rt, drain);
    true
}

// Whether waits over the link return, and takes after them answer as they should.
fn waits_return<R: Wait + Abort>(rt: &R, alloc: Global) -> bool {
    let mut seated = seat(rt, alloc, link(rt, alloc));
    let waited = wait_after_feeds(rt, &seated.cell, &mut seated.feed, &mut seated.drain);
    close(seated);
    waited
}

// A feed that came after the last take is there at once.
#[test]
fn a_wait_after_a_feed_returns(rt: HostRuntime) {
    check(
        &rt,
        waits_return(&rt, rt.alloc()),
        "the answers after waits",
    );
}
