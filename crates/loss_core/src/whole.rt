// A loss over the whole list of its arrivals.
ghost use Rattle.std.specs.Prelude.{◌≡◌, IfOk, OnOk, OnErr};
ghost use Rattle.loss_core.specs.Losses.{dropped, passed};

use crate::{Rate, Words};
use packet_record::Timed;
use std::alloc::Global;
use text_base::OutOfMemory;

/// Draws a word for each packet, in order: where `word * 1000000000 < rate * 4294967296` the packet is lost, else it
/// departs at the moment of its arrival. The list of arrivals becomes the list of departures. Returns the packets that
/// are lost. Where it runs out of memory for the two lists the arrivals are as they were.
pub fn lose_all<W: Words + Drop>(
    alloc: Global,
    rate: Rate,
    words: W,
    packets: &mut Vec<Timed>,
) -> Result<Vec<Timed>, OutOfMemory>
    ensures departed { OnOk result (packets.new.items ≡ passed rate.billionths (W.word words) 0 packets.old.items) }
    ensures lost { IfOk result (λ lost. lost.items ≡ dropped rate.billionths (W.word words) 0 packets.old.items) }
    ensures err { OnErr result (packets.new.items ≡ packets.old.items) }
{
    let mut words = words;
    let mut departed = Vec::new(alloc);
    let mut lost = Vec::new(alloc);
    departed.reserve(packets.len())?;
    lost.reserve(packets.len())?;
    let arrivals = packets.as_slice();
    for t in arrivals {
        let word = words.next();
        if rate.drops(word) {
            lost.push_reserved(*t);
        } else {
            departed.push_reserved(*t);
        }
    }
    *packets = departed;
    Ok(lost)
}
