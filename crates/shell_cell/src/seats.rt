// The two seats of a cell.
use crate::rule::Slot;
use crate::view::View;
use atomic_table::Seat;
use mark_channel::bell::Ringer;
use std::marker::Model;

/// The seat that feeds. Contracts see the turns that it has spent, the stream of the items that it has fed, whether it
/// has found the state broken, the horizon and its cell. The program stores none of these.
#[derive(Drop)]
pub struct FeedSeat {
    pub(crate) seat: Seat<Slot, View>,
    /// Wakes a drain that waits for feeds.
    pub(crate) ringer: Ringer,
}

impl Model for FeedSeat {
    ghost use Rattle.shell_cell.specs.Seats.{FeedView};

    ghost Value = { FeedView };

    ghost use Rattle.shell_cell.specs.views.Sides.{feed_view};
    ghost use Rattle.shell_cell.specs.inside.Sides.{IsFeedSeat};

    ghost view = { feed_view };

    ghost invariant = { IsFeedSeat };
}

/// The seat that takes. Contracts see the turns that it has spent, the stream of the items that it has taken, whether
/// it has found the state broken, the horizon and its cell. The program stores none of these.
#[derive(Drop)]
pub struct DrainSeat {
    pub(crate) seat: Seat<Slot, View>,
    /// The turn word as this seat left it when it last found nothing to take.
    pub(crate) seen: u64,
}

impl Model for DrainSeat {
    ghost use Rattle.shell_cell.specs.Seats.{DrainView};

    ghost Value = { DrainView };

    ghost use Rattle.shell_cell.specs.views.Sides.{drain_view};
    ghost use Rattle.shell_cell.specs.inside.Sides.{IsDrainSeat};

    ghost view = { drain_view };

    ghost invariant = { IsDrainSeat };
}
