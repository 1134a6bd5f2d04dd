// The source whose rows are in memory, and what every source sends row by row.
ghost use Rattle.std.specs.Prelude.{◌≡◌, ◌≤◌, ◌+◌, ◌++◌, ◌∷◌, [], min};
ghost use Rattle.packet_record.specs.declared.item.FlowEnd.TheVariants.{Open, Ended as IsOver};
ghost use Rattle.packet_record.specs.declared.packet.Direction.TheVariants.{Up, Down};
ghost use Rattle.packet_record.specs.Rows.{Rises};
ghost use Rattle.packet_record.specs.Sources.{source_items};
ghost use Rattle.packet_record.specs.Streams.{no_items};
ghost use Rattle.mark_channel.specs.Boths.{BothKeep, ByDirection, OfBoth};
ghost use Rattle.mark_channel.specs.Ends.{IsSameEnd};
ghost use Rattle.mark_channel.specs.Feedings.{HasSentRows};
ghost use Rattle.shell_workers.specs.inside.Sent.{SendsOn};
ghost use Rattle.shell_workers.specs.Sending.{AreAt, IsAt, SendsRow};

use mark_channel::{Run, Sender};
use mm_base::{Pace, Role};
use packet_record::{Both, Direction, Item, PackedRow, Row, source_item};
use std::sync::Wait;

/// How far a source has come.
#[derive(Clone, Copy)]
pub struct Progress {
    /// How many rows it has sent.
    pub rows: u64,
    /// The greatest moment sent up, in milliseconds; 0 before the first.
    pub up: u64,
    /// The greatest moment sent down, in milliseconds; 0 before the first.
    pub down: u64,
}

impl Progress {
    /// The progress of a source before its first row.
    pub fn new() -> Self
        ensures { (result.up ≡ 0) × (result.down ≡ 0) × (result.rows ≡ 0) }
    {
        Progress {
            rows: 0,
            up: 0,
            down: 0,
        }
    }
}

/// Sends what each row up to `horizon` (in milliseconds) gives, in both directions, and then the end. A row gives its
/// packet in its own direction first. Then it gives a mark in the other one, if nothing sent there has so late a
/// moment. So moments never fall.
///
/// The pace is asked before the items of each row, with the row's place counted from 1. It takes no memory.
pub fn source_rows<Q: Pace, R: Wait>(
    run: &Run<'_, Q, R>,
    rows: &[Row],
    horizon: u64,
    heads: &mut Both<Sender>,
)
    requires empty { OfBoth (λ head. head.flow ≡ no_items) heads.old }
    requires horizon { OfBoth (λ head. head.horizon ≡ horizon) heads.old }
    requires rises { Rises 0 rows.now }
    ensures items { (heads.new.up.items ≡ heads.old.up.items ++ source_items Up horizon rows.now)
        × (heads.new.down.items ≡ heads.old.down.items ++ source_items Down horizon rows.now) }
    ensures flow { ByDirection (λ d head. HasSentRows d horizon rows.now head.flow) heads.new }
    ensures same { BothKeep IsSameEnd heads.old heads.new }
{
    let Both { up, down } = heads;
    source(run.rt, rows, horizon, up, down, run.pace);
}

/// Sends the end in both directions.
pub fn end_both<R: Wait>(rt: &R, heads: &mut Both<Sender>)
    requires open { OfBoth (λ head. head.flow.end ≡ Open) heads.old }
    ensures items { BothKeep (λ old new. new.items ≡ old.items ++ Item.End ∷ []) heads.old heads.new }
    ensures packets { BothKeep (λ old new. new.flow.packets ≡ old.flow.packets) heads.old heads.new }
    ensures over { OfBoth (λ head. head.flow.end ≡ IsOver) heads.new }
    ensures same { BothKeep IsSameEnd heads.old heads.new }
{
    heads.up.send(rt, Item::End);
    heads.down.send(rt, Item::End);
}

// Sends what `rows` give in both directions, behind the rows of `sent`, and returns how far the source has come then.
pub(crate) fn send_rows<Q: Pace, R: Wait>(
    run: &Run<'_, Q, R>,
    rows: &[PackedRow],
    horizon: u64,
    sent: Progress,
    heads: &mut Both<Sender>,
) -> Progress
    requires at { AreAt horizon sent heads.old }
    requires rises { Rises sent.up rows.now × Rises sent.down rows.now }
    ensures at { AreAt horizon result heads.new }
    ensures sent { SendsOn Up horizon rows.now sent.up result.up heads.old.up heads.new.up
        × SendsOn Down horizon rows.now sent.down result.down heads.old.down heads.new.down }
    ensures same { BothKeep IsSameEnd heads.old heads.new }
{
    let mut sent = sent;
    for row in rows {
        sent = source_row(run, &row.row(), horizon, sent, heads);
    }
    sent
}

/// Sends what the next row gives in both directions, as `source_rows` does, and returns how far the source has come
/// then. A source whose rows stand in no list sends them one by one in this way, from `Progress::new()` on, and then
/// the end by `end_both`.
///
/// The pace is asked before, with the row's place counted from 1. It takes no memory.
pub fn source_row<Q: Pace, R: Wait>(
    run: &Run<'_, Q, R>,
    row: &Row,
    horizon: u64,
    sent: Progress,
    heads: &mut Both<Sender>,
) -> Progress
    requires at { AreAt horizon sent heads.old }
    requires rises { (sent.up ≤ row.now.timed.moment) × (sent.down ≤ row.now.timed.moment) }
    ensures rows { result.rows ≡ min (sent.rows + 1) 18446744073709551615 }
    ensures at { AreAt horizon result heads.new }
    ensures up { SendsRow Up horizon sent.up result.up row.now heads.old.up heads.new.up }
    ensures down { SendsRow Down horizon sent.down result.down row.now heads.old.down heads.new.down }
    ensures same { BothKeep IsSameEnd heads.old heads.new }
{
    run.pace
        .turn(run.rt, Role::Source, sent.rows.saturating_add(1));
    let Both { up, down } = heads;
    send_both(run.rt, row, horizon, sent, up, down)
}

/// As `source_rows`, for a caller that has the two senders apart, as a `Feeds` has. It takes no memory.
pub fn source<Q: Pace, R: Wait>(
    rt: &R,
    rows: &[Row],
    horizon: u64,
    up: &mut Sender,
    down: &mut Sender,
    pace: &Q,
)
    requires empty { (up.old.flow ≡ no_items) × (down.old.flow ≡ no_items) }
    requires horizon { (up.old.horizon ≡ horizon) × (down.old.horizon ≡ horizon) }
    requires rises { Rises 0 rows.now }
    ensures up { up.new.items ≡ up.old.items ++ source_items Up horizon rows.now }
    ensures down { down.new.items ≡ down.old.items ++ source_items Down horizon rows.now }
    ensures up_flow { HasSentRows Up horizon rows.now up.new.flow }
    ensures down_flow { HasSentRows Down horizon rows.now down.new.flow }
    ensures same { IsSameEnd up.old up.new × IsSameEnd down.old down.new }
{
    let mut sent = Progress::new();
    for row in rows {
        pace.turn(rt, Role::Source, sent.rows.saturating_add(1));
        sent = send_both(rt, row, horizon, sent, up, down);
    }
    up.send(rt, Item::End);
    down.send(rt, Item::End);
}

// Sends what the next row gives in both directions, in its own one first, and returns how far the source has come then.
fn send_both<R: Wait>(
    rt: &R,
    row: &Row,
    horizon: u64,
    sent: Progress,
    up: &mut Sender,
    down: &mut Sender,
) -> Progress
    requires at { IsAt horizon sent.up up.old × IsAt horizon sent.down down.old }
    requires rises { (sent.up ≤ row.now.timed.moment) × (sent.down ≤ row.now.timed.moment) }
    ensures rows { result.rows ≡ min (sent.rows + 1) 18446744073709551615 }
    ensures at { IsAt horizon result.up up.new × IsAt horizon result.down down.new }
    ensures up { SendsRow Up horizon sent.up result.up row.now up.old up.new }
    ensures down { SendsRow Down horizon sent.down result.down row.now down.old down.new }
    ensures same { IsSameEnd up.old up.new × IsSameEnd down.old down.new }
{
    let rows = sent.rows.saturating_add(1);
    match row.direction {
        Direction::Up => {
            let up_sent = send_row(rt, Direction::Up, horizon, sent.up, row, up, down);
            let down_sent = send_row(rt, Direction::Down, horizon, sent.down, row, down, up);
            Progress {
                rows,
                up: up_sent,
                down: down_sent,
            }
        }
        Direction::Down => {
            let down_sent = send_row(rt, Direction::Down, horizon, sent.down, row, down, up);
            let up_sent = send_row(rt, Direction::Up, horizon, sent.up, row, up, down);
            Progress {
                rows,
                up: up_sent,
                down: down_sent,
            }
        }
    }
}

// Sends what a row gives in `direction`. `sent` is the greatest moment sent there before, and `other` sends in the other
// direction. Returns the greatest moment sent in `direction` after it.
fn send_row<R: Wait>(
    rt: &R,
    direction: Direction,
    horizon: u64,
    sent: u64,
    row: &Row,
    to: &mut Sender,
    other: &Sender,
) -> u64
    requires at { IsAt horizon sent to.old }
    requires rises { sent ≤ row.now.timed.moment }
    ensures at { IsAt horizon result to.new }
    ensures sent { SendsRow direction horizon sent result row.now to.old to.new }
    ensures same { IsSameEnd to.old to.new }
{
    match source_item(direction, horizon, sent, row) {
        Some(item) => {
            to.send_beside(rt, item, other);
            row.timed.moment
        }
        None => sent,
    }
}
