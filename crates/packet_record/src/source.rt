// What the source sends in a direction.
ghost use Rattle.std.specs.Prelude.{◌≡◌};
ghost use Rattle.packet_record.specs.Sources.{source_item};

use crate::{Direction, Item, Row};

/// What a row gives in a direction, if the greatest moment sent in it so far is `sent` (0 if nothing was): its
/// packet in its own direction; in the other a mark at its moment, if that is above `sent`. A row past the horizon
/// gives nothing.
pub fn source_item(direction: Direction, horizon: u64, sent: u64, row: &Row) -> Option<Item>
    ensures { result ≡ source_item direction horizon sent row.now }
{
    let moment = row.timed.moment;
    if moment > horizon {
        return None;
    }
    if row.direction == direction {
        Some(Item::Packet(row.timed))
    } else if moment > sent {
        Some(Item::Mark(moment))
    } else {
        None
    }
}
