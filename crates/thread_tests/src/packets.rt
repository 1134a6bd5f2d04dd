// Packets of 100 bytes.
ghost use Rattle.std.specs.Prelude.{◌≡◌};

use packet_record::{Packet, Timed};

pub fn timed(id: u32, moment: u64) -> Timed
    ensures { result.moment ≡ moment }
{
    Timed {
        moment,
        packet: Packet { id, size: 100 },
    }
}
