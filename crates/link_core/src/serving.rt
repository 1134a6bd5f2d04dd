// What an opportunity carries, and what is written down of it and of an arrival.
ghost use Rattle.std.specs.Prelude.{◌≡◌, ◌+◌, ◌<◌, ◌≤◌, ◌++◌, ◌∷◌, length, map, vec_len, vec_capacity};
ghost use Rattle.packet_record.specs.Packets.{moved_to};
ghost use Rattle.shell_log.specs.Entries.{AreUpTo};
ghost use Rattle.link_core.specs.inside.Written.{HasWritten};
ghost use Rattle.link_core.specs.inside.Served.{IsServed, served};
ghost use Rattle.link_core.specs.Links.{drop_line_by};
ghost use Rattle.link_core.specs.inside.State.{IsPart, inside_buffer, served_lines};

use crate::buffer::Buffer;
use crate::journal::Journal;
use packet_queue::Dropped;
use packet_record::Timed;
use shell_log::Entry;
use text_base::limits::GREATEST_MOMENT;
use trace_reader::Opportunity;

/// Uses the opportunity `o`: the packets whose last bytes it carries depart. The opportunity and each departure are
/// written down.
#[inline(always)]
pub fn serve(buffer: &mut Buffer, o: Opportunity, departed: &mut Vec<Timed>, log: &mut Journal)
    requires part { IsPart buffer.old.packet buffer.old.used }
    requires room { length (inside_buffer buffer.old) + vec_len departed.old ≤ vec_capacity departed.old }
    requires spare { 1 + length (inside_buffer buffer.old) ≤ log.old.spare }
    requires short { o.moment ≤ GREATEST_MOMENT }
    requires order { AreUpTo o.moment log.old.entries }
    ensures buffer { IsServed o buffer.old buffer.new }
    ensures departed { departed.new.items ≡ departed.old.items ++ map (moved_to o.moment) (served buffer.old o) }
    ensures log { HasWritten (served_lines o (served buffer.old o)) log.old log.new }
    ensures room { length (inside_buffer buffer.new) + vec_len departed.new
        ≡ length (inside_buffer buffer.old) + vec_len departed.old }
    ensures capacity { vec_capacity departed.new ≡ vec_capacity departed.old }
    ensures spare { log.old.spare + length (inside_buffer buffer.new)
        ≤ log.new.spare + 1 + length (inside_buffer buffer.old) }
{
    log.add(Entry::Opportunity {
        moment: o.moment,
        bytes: o.bytes,
    });
    let mut room = o.bytes as u64;
    'packets: while let Some(t) = buffer.carry(&mut room) {
        log.add(Entry::Departure {
            moment: o.moment,
            size: t.packet.size,
            delay: o.moment.saturating_sub(t.moment),
        });
        departed.push_reserved(Timed {
            moment: o.moment,
            packet: t.packet,
        });
    }
}

/// Writes down the arrival `t`, and what it dropped.
pub fn note(log: &mut Journal, t: Timed, dropped: Dropped)
    requires spare { 2 ≤ log.old.spare }
    requires order { AreUpTo t.moment log.old.entries }
    requires short { t.moment ≤ GREATEST_MOMENT }
    requires some { 0 < dropped.packets → 0 < dropped.bytes }
    requires packets { dropped.packets ≤ dropped.bytes }
    requires bytes { dropped.bytes ≤ 3008 }
    ensures log { HasWritten
        (Entry.Arrival t.moment t.packet.size ∷ drop_line_by t.moment dropped.packets dropped.bytes) log.old log.new }
    ensures left { log.old.spare ≤ log.new.spare + 2 }
{
    log.add(Entry::Arrival {
        moment: t.moment,
        size: t.packet.size,
    });
    if dropped.packets > 0 {
        log.add(Entry::Drop {
            moment: t.moment,
            packets: dropped.packets,
            bytes: dropped.bytes,
        });
    }
}
