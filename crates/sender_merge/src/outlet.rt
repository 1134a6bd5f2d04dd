// The sending ends of one sender, and the thread that sends its rows.
ghost use Rattle.std.specs.Prelude.{◌≡◌, ◌≤◌, map};
ghost use Rattle.packet_record.specs.Sources.{source_items};
ghost use Rattle.mark_channel.specs.Boths.{ByDirection};
ghost use Rattle.mark_channel.specs.Feedings.{HasSentRows};
ghost use Rattle.sender_merge.specs.Merges.{merged_row as merged_row_of};

use mark_channel::{Run, Sender};
use mm_base::Pace;
use packet_record::{Both, PackedSchedule, Packet, Row, Timed};
use shell_workers::{Progress, end_both, source_row};
use std::sync::Wait;

// The sending ends of one sender.
#[derive(Drop)]
pub(crate) struct Outlet {
    pub heads: Both<Sender>,
}

// Returns the row of `sender`, 1 to 16, with its number in the merge. In `row` it has the number of its line.
pub(crate) fn merged_row(sender: u32, row: Row) -> Row
    requires some { 1 ≤ row.timed.packet.id }
    requires most { row.timed.packet.id ≤ 1000000 }
    requires few { sender ≤ 16 }
    ensures { result ≡ merged_row_of sender row }
{
    let Timed { moment, packet } = row.timed;
    let id = 16 * (packet.id - 1) + sender;
    Row {
        direction: row.direction,
        timed: Timed {
            moment,
            packet: Packet {
                id,
                size: packet.size,
            },
        },
    }
}

impl Outlet {
    ghost use Rattle.sender_merge.specs.inside.Feeding.{SentOrBroken};
    ghost use Rattle.sender_merge.specs.inside.Outlets.{IsEmpty, IsSameOutlet};

    // Sends the rows of `schedule` as those of `sender`, 1 to 16, up to `horizon`, and then the end. The pace is asked
    // before each row, with the row's place counted from 1. It takes no memory.
    pub fn send_schedule<Q: Pace, R: Wait>(
        &mut self,
        run: &Run<'_, Q, R>,
        sender: u32,
        schedule: &PackedSchedule,
        horizon: u64,
    )
        requires few { sender ≤ 16 }
        requires empty { IsEmpty horizon self.old }
        ensures items { ByDirection (λ d head. head.items ≡ source_items d horizon
            (map (merged_row_of sender) schedule.now)) self.new.heads }
        ensures rows { ByDirection (λ d head. HasSentRows d horizon (map (merged_row_of sender) schedule.now) head.flow)
            self.new.heads }
        ensures same { IsSameOutlet self.old self.new }
    {
        let heads = &mut self.heads;
        let mut sent = Progress::new();
        for row in schedule.rows() {
            let merged = merged_row(sender, row.row());
            sent = source_row(run, &merged, horizon, sent, heads);
        }
        end_both(run.rt, heads);
    }

    // Sends the rows as `send_schedule` does, once all senders and merges have begun. If they can't begin, both
    // directions are broken off. Counts itself among those that have begun.
    pub fn send_begun<Q: Pace, R: Wait>(
        &mut self,
        run: &Run<'_, Q, R>,
        sender: u32,
        schedule: &PackedSchedule,
        horizon: u64,
    )
        requires few { sender ≤ 16 }
        requires empty { IsEmpty horizon self.old }
        ensures sent { SentOrBroken horizon sender schedule.now self.new }
        ensures same { IsSameOutlet self.old self.new }
    {
        run.begun.raise();
        let Both { up, down } = &mut self.heads;
        if run.begun.wait(run.rt, up, down).is_err() {
            return;
        }
        self.send_schedule(run, sender, schedule, horizon);
    }
}
