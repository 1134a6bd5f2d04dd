// Makes channels, and ends them.
ghost use Rattle.std.specs.Prelude.{◌≡◌, ◌≤◌, ◌≢◌, [], IfOk};
ghost use mathlib.Core.List.{IsPrefix};
ghost use Rattle.packet_record.specs.declared.item.FlowEnd.TheVariants.{Open};
ghost use Rattle.packet_record.specs.Streams.{no_items, IsStreamPrefix};
ghost use Rattle.crossbeam_channel.specs.Claims.{view, IsSeatAt};
ghost use Rattle.crossbeam_channel.specs.Ends.{sends_on};
ghost use Rattle.mark_channel.specs.inside.Carrying.{nothing};
ghost use Rattle.mark_channel.specs.inside.Rules.{opening, sending, getting};

use crate::bells::open_bells;
use crate::rule::{HasHorizon, InOrder, Roles, Together, Total, View};
use crate::{Receiver, Sender};
use crossbeam_channel::{Pass, RuledSender, bounded_with};
use packet_record::Item;
use std::alloc::Global;
use std::marker::Brand;
use text_base::OutOfMemory;

/// Makes a channel that holds up to `capacity` items, 1 to 64, for a run up to `horizon` milliseconds.
///
/// All memory that the channel will ever need is allocated here, so no later call allocates. Returns `OutOfMemory` if
/// an allocation fails.
pub fn open(alloc: Global, capacity: u32, horizon: u64) -> Result<(Sender, Receiver), OutOfMemory>
    requires some { 1 ≤ capacity }
    requires most { capacity ≤ 64 }
    ensures flows { IfOk result (λ ends. (ends.0.flow ≡ no_items) × (ends.1.flow ≡ no_items)) }
    ensures items { IfOk result (λ ends. (ends.0.items ≡ []) × (ends.1.items ≡ [])) }
    ensures horizons { IfOk result (λ ends. (ends.0.horizon ≡ horizon) × (ends.1.horizon ≡ horizon)) }
    ensures channel { IfOk result (λ ends. ends.0.channel ≡ ends.1.channel) }
{
    let places = capacity as usize;
    let (sending, receiving) = open_bells(alloc, capacity)?;
    let (to, from, mut pass) = bounded_with::<Item, View, InOrder, Global>(alloc, places)?;
    let other = split::<Brand>(&to, &mut pass, horizon);
    let sender = Sender {
        end: to,
        pass,
        bells: sending,
    };
    let receiver = Receiver {
        end: from,
        pass: other,
        bells: receiving,
    };
    Ok((sender, receiver))
}

// Makes the receiver's pass, and fixes the horizon of both ends.
fn split<L: HasHorizon>(
    end: &RuledSender<Item, View, InOrder>,
    pass: &mut Pass<Item, View>,
    horizon: u64,
) -> Pass<Item, View>
    requires horizon { L.horizon ≡ horizon }
    requires seat { IsSeatAt (sends_on end.now) pass.old }
    requires first { view pass.old ≡ opening }
    ensures left { IsSeatAt (sends_on end.now) pass.new × (view pass.new ≡ sending horizon nothing) }
    ensures right { IsSeatAt (sends_on end.now) result × (view result ≡ getting horizon nothing) }
{
    end.another::<Roles<L>>(pass)
}

/// Ends a channel. What was received is a prefix of what was sent, item by item. If `End` or `Broken` was received, it
/// is all of it. Items that are still in the channel are dropped.
pub fn settle(sender: Sender, receiver: Receiver)
    requires { sender.channel ≡ receiver.channel }
    ensures prefix { IsStreamPrefix receiver.flow sender.flow }
    ensures items { IsPrefix receiver.items sender.items }
    ensures whole { receiver.flow.end ≢ Open → (receiver.flow ≡ sender.flow) × (receiver.items ≡ sender.items) }
{
    let Sender {
        end,
        mut pass,
        bells: _,
    } = sender;
    let Receiver {
        end: from,
        pass: other,
        bells: _,
    } = receiver;
    end.absorb::<Together>(&mut pass, other);
    end.learn_as::<Total>(&mut pass);
    drop(from);
}
