// A channel of a world, the shells behind it, and the collector behind the last: who receives from a channel.
ghost use Rattle.std.specs.Prelude.{◌≡◌, [], OnOk, OnErr, IfOk};
ghost use Rattle.nest_core.specs.Worlds.{line};
ghost use Rattle.nest_core.specs.WorldSteps.{received};
ghost use Rattle.nest_core.specs.inside.Does.{receives_at, MayCollect};

use crate::channel::Channel;
use crate::station::Station;
use packet_record::Flow;
use text_base::OutOfMemory;

// The collector receives an item. Returns whether there was one.
fn collect(channel: &mut Channel, collected: &mut Flow) -> Result<bool, OutOfMemory>
    requires { MayCollect channel.old [] collected.old.stream }
    ensures ok { OnOk result (line channel.new [] collected.new.stream
        ≡ received 0 channel.old [] collected.old.stream) }
    ensures did { IfOk result (λ did. did ≡ receives_at 0 channel.old []) }
    ensures err { OnErr result ((channel.new ≡ channel.old) × (collected.new.stream ≡ collected.old.stream)) }
{
    let Some(item) = channel.first() else {
        return Ok(false);
    };
    collected.push(item)?;
    channel.receive();
    Ok(true)
}

// The feeder of the shell at the place `shell` receives, or past the last shell the collector. Returns whether it did.
pub(crate) fn receive(
    channel: &mut Channel,
    stations: &mut [Station],
    collected: &mut Flow,
    shell: usize,
) -> Result<bool, OutOfMemory>
    requires { MayCollect channel.old stations.old collected.old.stream }
    ensures ok { OnOk result (line channel.new stations.new collected.new.stream
        ≡ received shell channel.old stations.old collected.old.stream) }
    ensures did { IfOk result (λ did. did ≡ receives_at shell channel.old stations.old) }
    ensures err { OnErr result ((channel.new ≡ channel.old) × (stations.new ≡ stations.old)
        × (collected.new.stream ≡ collected.old.stream)) }
{
    let Some((station, rest)) = stations.split_first_mut() else {
        if shell == 0 {
            return collect(channel, collected);
        }
        return Ok(false);
    };
    if shell == 0 {
        return Ok(station.receive(channel));
    }
    receive(&mut station.channel, rest, collected, shell - 1)
}
