// Schedules made from a number.
ghost use Rattle.std.specs.Prelude.{◌≡◌, ◌≤◌, ◌<◌, ◌+◌, ◌*◌, ◌%◌, map, IfOk};
ghost use Rattle.packet_record.specs.Draws.{next_draw};
ghost use Rattle.packet_record.specs.Loads.{drawn_direction, load_of};
ghost use Rattle.packet_record.specs.Said.{fields};
ghost use Rattle.packet_record.specs.Schedules.{said};

use crate::{Direction, Draws, Packet, Row, Schedule, Timed};
use std::alloc::Global;
use text_base::OutOfMemory;
use text_base::limits::MOST_LINES;

/// The schedule of `packets` packets, 1 to 1,000,000, that the generator makes of `number`, or out of memory. Each
/// packet takes three draws: the first modulo 4 is the milliseconds since the packet before (the first since moment 0),
/// the second modulo 4 gives the direction (0 and 1 go up), and the third modulo 1461 plus 40 is the size in bytes.
pub fn make_load(alloc: Global, number: u64, packets: u32) -> Result<Schedule, OutOfMemory>
    requires some { 1 ≤ packets }
    requires most { packets ≤ MOST_LINES }
    ensures { IfOk result (λ rows. map said rows ≡ load_of number packets) }
{
    let mut draws = Draws::new(number);
    let mut rows = Vec::with_capacity(alloc, packets as usize)?;
    let mut moment = 0;
    for before in 0..packets {
        let row = draw_row(&mut draws, before, moment);
        moment = row.timed.moment;
        rows.push(row)?;
    }
    Ok(Schedule::from_rows(rows))
}

// Draws the row behind `before` rows, the last of them at `moment`.
fn draw_row(draws: &mut Draws, before: u32, moment: u64) -> Row
    requires few { before < MOST_LINES }
    requires low { moment ≤ 3 * before }
    ensures after { draws.new ≡ next_draw (next_draw (next_draw draws.old)) }
    ensures id { result.timed.packet.id ≡ before + 1 }
    ensures said { said result ≡ fields (moment + next_draw draws.old % 4)
        (drawn_direction (next_draw (next_draw draws.old))) (40 + next_draw (next_draw (next_draw draws.old)) % 1461) }
{
    let moment = moment + u64::from(draws.draw() % 4);
    let direction = if draws.draw() % 4 < 2 {
        Direction::Up
    } else {
        Direction::Down
    };
    let packet = Packet {
        id: before + 1,
        size: (40 + draws.draw() % 1461) as u16,
    };
    Row {
        direction,
        timed: Timed { moment, packet },
    }
}
