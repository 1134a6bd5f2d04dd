// A row in 12 bytes.
ghost use Rattle.std.specs.Prelude.{◌≡◌, ◌≤◌, ◌%◌};

use crate::{Direction, Packet, Row, Timed};
use std::marker::Model;
use text_base::limits::GREATEST_MOMENT;

// The size of a packet is below this.
const SIZE_END: u32 = 2048;

// What `PackedRow::rest` has for a row that goes down.
const DOWN: u32 = 2048;

// `PackedRow::rest` has this for each time that `LOW_END` goes into the moment.
const HIGH: u32 = 4096;

// The part of the moment in `PackedRow::low` is below this: 2 to the 32nd.
const LOW_END: u64 = 4_294_967_296;

/// A row in 12 bytes. Contracts see the row.
#[derive(Drop)]
pub struct PackedRow {
    id: u32,
    // The moment modulo 2 to the 32nd.
    low: u32,
    // The size, plus 2048 for down, plus 4096 for each time that 2 to the 32nd goes into the moment.
    rest: u32,
    ghost some: { 1 ≤ rest % 2048 },
    ghost most: { rest % 2048 ≤ 1504 },
}

impl Model for PackedRow {
    ghost use Rattle.packet_record.specs.declared.packet.Row.{Row};
    ghost use Rattle.packet_record.specs.views.PackedRow.{packed_row};

    ghost Value = { Row };

    ghost view = { packed_row };
}

impl PackedRow {
    /// Packs a row whose moment is at most `GREATEST_MOMENT`.
    #[inline(always)]
    pub fn new(row: Row) -> Self
        requires { row.timed.moment ≤ GREATEST_MOMENT }
        ensures { result ≡ row }
    {
        let Timed { moment, packet } = row.timed;
        let id = packet.id;
        let low = (moment % LOW_END) as u32;
        let rest = (moment / LOW_END) as u32 * HIGH + u32::from(packet.size);
        match row.direction {
            Direction::Up => PackedRow { id, low, rest },
            Direction::Down => PackedRow {
                id,
                low,
                rest: rest + DOWN,
            },
        }
    }

    /// The row.
    #[inline(always)]
    pub fn row(&self) -> Row
        ensures { result ≡ self.now }
    {
        Row {
            direction: self.direction(),
            timed: self.timed(),
        }
    }

    /// Where it goes.
    #[inline(always)]
    pub fn direction(&self) -> Direction
        ensures { result ≡ self.now.direction }
    {
        if self.rest / DOWN % 2 == 0 {
            Direction::Up
        } else {
            Direction::Down
        }
    }

    /// When it enters, in whole milliseconds from the start of the run.
    #[inline(always)]
    pub fn moment(&self) -> u64
        ensures { result ≡ self.now.timed.moment }
    {
        u64::from(self.rest / HIGH) * LOW_END + u64::from(self.low)
    }

    /// Its packet, when it enters.
    #[inline(always)]
    pub fn timed(&self) -> Timed
        ensures { result ≡ self.now.timed }
    {
        let packet = Packet {
            id: self.id,
            size: (self.rest % SIZE_END) as u16,
        };
        Timed {
            moment: self.moment(),
            packet,
        }
    }
}
