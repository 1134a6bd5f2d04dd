// One who feeds both directions of a run with one row, by the source that any such one may call.
ghost use Rattle.std.specs.Prelude.{◌≡◌};
ghost use Rattle.packet_record.specs.Streams.{no_items};
ghost use Rattle.mark_channel.specs.Ends.{IsSameEnd};

use super::receive_all;
use crate::checks::check;
use crate::packets::timed;
use crate::ways::{open_ways, settle_ways};
use mark_channel::{FeedEnd, Feeds, Sender};
use mm_base::NoPace;
use packet_record::{Direction, Row};
use shell_workers::source;
use std::alloc::Global;
use std::process::Abort;
use std::slice;
use std::sync::Wait;
use std::thread::Threads;

// One row, and all that is fed.
#[derive(Drop)]
struct OneRow {
    row: Row,
}

impl Feeds for OneRow {
    ghost use Rattle.std.specs.Prelude.{◌∷◌, []};

    ghost fed_rows = { λ s. s.row ∷ [] };

    fn rows(&self) -> &[Row] {
        slice::from_ref(&self.row)
    }

    fn feed<R: Threads + Wait + Sync>(
        &mut self,
        rt: &R,
        horizon: u64,
        up: &mut Sender,
        down: &mut Sender,
    ) -> FeedEnd {
        source(rt, slice::from_ref(&self.row), horizon, up, down, &NoPace);
        FeedEnd::Ended
    }
}

// How many rows are fed. It says nothing of them.
fn count_rows<F: Feeds>(feeds: &F) -> usize {
    feeds.rows().len()
}

// Feeds two channels. It says nothing of what was sent.
fn feed_both<F: Feeds, R: Threads + Wait + Sync>(
    rt: &R,
    feeds: &mut F,
    horizon: u64,
    up: &mut Sender,
    down: &mut Sender,
) -> FeedEnd
    requires empty { (up.old.flow ≡ no_items) × (down.old.flow ≡ no_items) }
    requires within { (up.old.horizon ≡ horizon) × (down.old.horizon ≡ horizon) }
    ensures same { IsSameEnd up.old up.new × IsSameEnd down.old down.new }
{
    feeds.feed(rt, horizon, up, down)
}

// Feeds two channels, and counts what each of them carried before its end.
fn feed_two<F: Feeds, R: Threads + Wait + Abort + Sync>(
    rt: &R,
    alloc: Global,
    feeds: &mut F,
) -> (FeedEnd, u32, u32) {
    let mut ways = open_ways(alloc, 64, 20).expect(rt, "memory");
    let end = feed_both(rt, feeds, 20, &mut ways.up, &mut ways.down);
    let went_up = receive_all(rt, &mut ways.up_end);
    let went_down = receive_all(rt, &mut ways.down_end);
    settle_ways(ways);
    (end, went_up, went_down)
}

// Feeds one row in this direction: how that ends, and how many packets go up and down.
fn feed_row<R: Threads + Wait + Abort + Sync>(
    rt: &R,
    alloc: Global,
    direction: Direction,
) -> (FeedEnd, u32, u32) {
    let row = Row {
        direction,
        timed: timed(0, 20),
    };
    let mut feeds = OneRow { row };
    check(rt, count_rows(&feeds) == 1, "one row");
    feed_two(rt, alloc, &mut feeds)
}

#[test]
fn feeds_its_row_in_its_direction(rt: HostRuntime) {
    let up = feed_row(&rt, rt.alloc(), Direction::Up);
    check(&rt, up == (FeedEnd::Ended, 1, 0), "a row up");
    let down = feed_row(&rt, rt.alloc(), Direction::Down);
    check(&rt, down == (FeedEnd::Ended, 0, 1), "a row down");
}
