// The packets of a relay, as they are received.
ghost use Rattle.std.specs.Prelude.{◌≡◌, ◌≤◌, ◌<◌, ◌+◌, ◌++◌, ◌∷◌, [], List, ℕ, length, option_to_list};
ghost use Rattle.std.specs.Prelude.{IfNone, IfOk, IfSome, OnOk};
ghost use Rattle.live_relay.specs.Due.{pieces_of};
ghost use Rattle.live_relay.specs.Stamped.{refused_at, rows_from, stamped_at};
ghost use Rattle.live_relay.specs.inside.Pieces.{KeepsBoth};
ghost use Rattle.live_relay.specs.inside.Ways.{fits_not};
ghost use Rattle.live_relay.specs.Wires.{datagram_in};

use crate::Side;
use crate::kept::Kept;
use packet_record::{Packet, Row, Timed};
use std::alloc::Global;
use text_base::{Bytes, OutOfMemory};

// The most bytes of a packet.
pub(crate) const MOST: usize = 1_504;

// The rows, the bytes of those that may still leave in each direction, and how many datagrams were refused.
#[derive(Drop)]
pub(crate) struct Stamps {
    pub rows: Vec<Row>,
    pub up: Kept,
    pub down: Kept,
    pub refused: u32,
}

// The packet of `size` bytes after `before` others, where a packet may have that size.
fn packet_after(before: usize, size: usize) -> Option<Packet>
    requires { before < 1000000 }
    ensures some { IfSome result (λ p. (p.id ≡ before + 1) × (p.size ≡ size)) }
    ensures fits { IfNone result (fits_not size) }
{
    if (1..=MOST).contains(&size) {
        return Some(Packet {
            id: before as u32 + 1,
            size: size as u16,
        });
    }
    None
}

impl Stamps {
    /// No packets.
    pub fn new(alloc: Global) -> Stamps
        ensures empty { (result.rows.items ≡ []) × (result.refused ≡ 0) }
        ensures kept { KeepsBoth [] result }
    {
        Stamps {
            rows: Vec::new(alloc),
            up: Kept::new(alloc),
            down: Kept::new(alloc),
            refused: 0,
        }
    }

    // Keeps the bytes of the packet of this number, which goes the way of what this side sends.
    fn keep(&mut self, side: Side, number: u32, bytes: Bytes) -> Result<(), OutOfMemory>
        ensures kept { OnOk result ((all : List (List ℕ)) → number ≡ length all + 1 → KeepsBoth all self.old
            → KeepsBoth (all ++ bytes ∷ []) self.new) }
        ensures same { (self.new.rows.items ≡ self.old.rows.items) × (self.new.refused ≡ self.old.refused) }
    {
        match side {
            Side::Client => self.up.keep(number, bytes),
            Side::Server => self.down.keep(number, bytes),
        }
    }

    /// Takes what a turn at this moment received, which is at the start of the buffer. Answers the row that it is, if it
    /// is one.
    pub fn take_in(
        &mut self,
        moment: u64,
        got: Option<(Side, usize)>,
        buf: &[u8],
    ) -> Result<Option<Row>, OutOfMemory>
        requires within { IfSome got (λ r. r.1 ≤ length buf.now) }
        requires few { (length self.old.rows.items < 1000000) × (self.old.refused < 1000000) }
        ensures rows { OnOk result (self.new.rows.items ≡ self.old.rows.items
            ++ rows_from (length self.old.rows.items + 1) (stamped_at moment (datagram_in buf.now got))) }
        ensures kept { OnOk result ((all : List (List ℕ)) → length all ≡ length self.old.rows.items
            → KeepsBoth all self.old
            → KeepsBoth (all ++ pieces_of (stamped_at moment (datagram_in buf.now got))) self.new) }
        ensures refused { OnOk result (self.new.refused ≡ self.old.refused + refused_at (datagram_in buf.now got)) }
        ensures row { IfOk result (λ row. option_to_list row
            ≡ rows_from (length self.old.rows.items + 1) (stamped_at moment (datagram_in buf.now got))) }
    {
        let Some((side, size)) = got else {
            return Ok(None);
        };
        let Some(packet) = packet_after(self.rows.len(), size) else {
            self.refused += 1;
            return Ok(None);
        };
        let row = Row {
            direction: side.direction(),
            timed: Timed { moment, packet },
        };
        let alloc = *self.rows.allocator();
        let bytes = Bytes::from_slice(alloc, &buf[..size])?;
        self.keep(side, packet.id, bytes)?;
        self.rows.push(row)?;
        Ok(Some(row))
    }
}
