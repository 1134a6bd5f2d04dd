// What the source of a direction has still to send into the first shell.
ghost use Rattle.std.specs.Prelude.{◌≡◌, ◌++◌, ◌∷◌, [], drop, option_to_list, IfNone, MatchOption};
ghost use Rattle.packet_record.specs.Sources.{items_from, source_items};
ghost use Rattle.packet_record.specs.declared.item.Item.TheVariants.{End};

use packet_record::{Direction, Item, Row, source_item};
use std::marker::Model;

// The items that a source has still to send: those of the rows, and then the end. Contracts see them as a list.
#[derive(Drop)]
pub(crate) struct Unsent<'a> {
    direction: Direction,
    horizon: u64,
    rows: &'a [Row],
    // The place of the first row that isn't sent.
    place: usize,
    // The greatest moment that was sent, or 0 before any.
    sent: u64,
    // Whether the end was sent.
    is_over: bool,
}

impl<'a> Model for Unsent<'a> {
    ghost use Rattle.std.specs.Prelude.{List};
    ghost use Rattle.packet_record.specs.declared.item.Item.{Item};

    ghost Value = { List Item };

    ghost use Rattle.nest_core.specs.views.Unsent.{unsent_view};

    ghost view = { unsent_view };
}

// The item that a row gave, the place after that row, and the row's moment.
#[derive(Drop)]
struct RowItem {
    item: Item,
    place: usize,
    sent: u64,
}

// Returns the next item that the rows from `place` on give, or `None` where they give no more. `sent` is the greatest
// moment that was sent.
fn next_item(
    direction: Direction,
    horizon: u64,
    rows: &[Row],
    place: usize,
    sent: u64,
) -> Option<RowItem>
    ensures { MatchOption result (items_from direction horizon sent (drop place rows.now) ≡ End ∷ [])
        (λ f. items_from direction horizon sent (drop place rows.now)
        ≡ f.item ∷ items_from direction horizon f.sent (drop f.place rows.now)) }
{
    let mut place = place;
    while place < rows.len() {
        let row = rows[place];
        place += 1;
        if let Some(item) = source_item(direction, horizon, sent, &row) {
            let sent = row.timed.moment;
            return Some(RowItem { item, place, sent });
        }
    }
    None
}

impl<'a> Unsent<'a> {
    // The items of a source that has sent nothing.
    pub(crate) fn new(direction: Direction, horizon: u64, rows: &'a [Row]) -> Unsent<'a>
        ensures { result ≡ source_items direction horizon rows.now }
    {
        Unsent {
            direction,
            horizon,
            rows,
            place: 0,
            sent: 0,
            is_over: false,
        }
    }

    // Returns the next item, which is then sent, or `None` after the end.
    pub(crate) fn next(&mut self) -> Option<Item>
        ensures items { self.old ≡ option_to_list result ++ self.new }
        ensures over { IfNone result (self.old ≡ []) }
    {
        if self.is_over {
            return None;
        }
        match next_item(
            self.direction,
            self.horizon,
            self.rows,
            self.place,
            self.sent,
        ) {
            Some(found) => {
                self.place = found.place;
                self.sent = found.sent;
                Some(found.item)
            }
            None => {
                self.is_over = true;
                Some(Item::End)
            }
        }
    }
}
