// The packets that enter a nest in a direction.
ghost use Rattle.std.specs.Prelude.{◌≡◌, ◌&&◌, [], nat_le, IfOk};
ghost use Rattle.packet_record.specs.Moments.{AreUpTo, Rise};
ghost use Rattle.packet_record.specs.Rows.{entering, goes};
ghost use Rattle.nest_plain.specs.views.Arrivals.{entering_by};

use packet_record::{Direction, PackedRow, SharedSchedule, Timed};
use text_base::OutOfMemory;

// Returns whether a row goes in a direction, up to the horizon.
#[inline(always)]
fn enters(direction: Direction, horizon: u64, row: &PackedRow) -> bool
    ensures { result ≡ (goes direction row.now.direction && nat_le row.now.timed.moment horizon) }
{
    row.direction() == direction && row.moment() <= horizon
}

// Where the packets come from that enter a nest in a direction, up to the horizon: a schedule that is shared.
#[derive(Drop)]
pub(crate) struct ArrivalSource {
    pub(crate) schedule: SharedSchedule,
    pub(crate) direction: Direction,
    pub(crate) horizon: u64,
}

impl ArrivalSource {
    // Returns the packets, in the room of an empty list.
    pub(crate) fn packets(&self, room: Vec<Timed>) -> Result<Vec<Timed>, OutOfMemory>
        requires { room.items ≡ [] }
        ensures packets { IfOk result (λ packets. packets.items ≡ entering_by self.now) }
        ensures rise { IfOk result (λ packets. Rise packets.items) }
        ensures within { IfOk result (λ packets. AreUpTo self.now.horizon packets.items) }
    {
        let rows = self.schedule.rows();
        let packets = entering_rows(self.direction, self.horizon, rows, room)?;
        Ok(packets)
    }

    // Returns another holder of the same schedule, direction and horizon, or runs out of memory. No row is copied.
    pub(crate) fn copy(&self) -> Result<ArrivalSource, OutOfMemory>
        ensures { IfOk result (λ source. source ≡ self.now) }
    {
        Ok(ArrivalSource {
            schedule: self.schedule.copy()?,
            direction: self.direction,
            horizon: self.horizon,
        })
    }
}

// Returns the packets of a direction among rows, up to the horizon, in the room of an empty list.
fn entering_rows(
    direction: Direction,
    horizon: u64,
    rows: &[PackedRow],
    room: Vec<Timed>,
) -> Result<Vec<Timed>, OutOfMemory>
    requires { room.items ≡ [] }
    ensures { IfOk result (λ packets. packets.items ≡ entering direction horizon rows.now) }
{
    let mut packets = room;
    for row in rows {
        if enters(direction, horizon, row) {
            packets.push(row.timed())?;
        }
    }
    Ok(packets)
}
