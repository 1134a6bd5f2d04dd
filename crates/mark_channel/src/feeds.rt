// Whatever feeds both directions of a run.
ghost use Rattle.std.specs.Prelude.{◌≡◌, ◌≢◌, List};
ghost use Rattle.std.specs.Thread.{IsSync};
ghost use Rattle.packet_record.specs.declared.item.FlowEnd.TheVariants.{Open};
ghost use Rattle.packet_record.specs.declared.packet.Direction.TheVariants.{Up, Down};
ghost use Rattle.packet_record.specs.declared.packet.Row.{Row as RowValue};
ghost use Rattle.packet_record.specs.Rows.{AreApart, Rises};
ghost use Rattle.packet_record.specs.Streams.{no_items};
ghost use Rattle.mark_channel.specs.Ends.{IsSameEnd};
ghost use Rattle.mark_channel.specs.Feedings.{HasSentRows, IfFed};

use crate::Sender;
use packet_record::Row;
use std::marker::Sync;
use std::sync::Wait;
use std::thread::Threads;

/// How a feeding ended.
#[derive(Clone, Copy, PartialEq, Eq)]
pub enum FeedEnd {
    /// All rows up to the horizon were sent, and then the end, in both directions.
    Ended,
    /// An allocation failed, or a thread couldn't be made.
    OutOfMemory,
}

/// Something that feeds both directions of a run with its rows. It may use threads of its own.
pub trait Feeds {
    /// The rows that it feeds.
    ghost fed_rows: { Self → List RowValue };

    /// Returns the rows that it feeds. No two have one number, and their moments never fall.
    fn rows(&self) -> &[Row]
        ensures rows { result.now ≡ fed_rows self.now }
        ensures apart { AreApart (fed_rows self.now) }
        ensures rises { Rises 0 (fed_rows self.now) };

    /// Sends what the rows give in each direction up to `horizon`, in milliseconds, which is that of both channels.
    /// Nothing was sent before. When it returns, `End` or `Broken` was sent in both directions.
    ///
    /// Returns `FeedEnd::OutOfMemory` if an allocation fails, in any thread, or a thread can't be made.
    fn feed<R: Threads + Wait + Sync>(
        &mut self,
        rt: &R,
        horizon: u64,
        up: &mut Sender,
        down: &mut Sender,
    ) -> FeedEnd
        requires shared { IsSync R.row }
        requires empty { (up.old.flow ≡ no_items) × (down.old.flow ≡ no_items) }
        requires within { (up.old.horizon ≡ horizon) × (down.old.horizon ≡ horizon) }
        ensures rows { fed_rows self.new ≡ fed_rows self.old }
        ensures closed { (up.new.flow.end ≢ Open) × (down.new.flow.end ≢ Open) }
        ensures up { IfFed result (HasSentRows Up horizon (fed_rows self.old) up.new.flow) }
        ensures down { IfFed result (HasSentRows Down horizon (fed_rows self.old) down.new.flow) }
        ensures same { IsSameEnd up.old up.new × IsSameEnd down.old down.new };
}
