// The receiving end of a channel.
ghost use Rattle.std.specs.Prelude.{◌≡◌, ◌++◌, ◌∷◌, [], IfSome, IfNone};
ghost use Rattle.packet_record.specs.declared.item.FlowEnd.TheVariants.{Open};
ghost use Rattle.packet_record.specs.Streams.{after, MayFollow, IsUpTo};
ghost use Rattle.mark_channel.specs.Ends.{IsSameEnd};
ghost use Rattle.mark_channel.specs.inside.Ends.{MayPass, with_item};

use crate::bell::{LOOKS, pause};
use crate::bells::EndBells;
use crate::rule::{Got, InOrder, View};
use crossbeam_channel::{Pass, RuledReceiver};
use packet_record::Item;
use std::marker::Model;
use std::sync::Wait;

/// The receiving end of a channel. Contracts see the stream of what was received, its items, the horizon and the
/// channel.
#[derive(Drop)]
pub struct Receiver {
    pub(crate) end: RuledReceiver<Item, View, InOrder>,
    pub(crate) pass: Pass<Item, View>,
    pub(crate) bells: EndBells,
}

impl Model for Receiver {
    ghost use Rattle.mark_channel.specs.Ends.{End};

    ghost Value = { End };

    ghost use Rattle.mark_channel.specs.views.Sides.{receiver_view};
    ghost use Rattle.mark_channel.specs.inside.Sides.{IsReceiver};

    ghost view = { receiver_view };

    ghost invariant = { IsReceiver };
}

impl Receiver {
    /// Waits for an item, removes it from the channel and returns it. It takes no memory.
    ///
    /// The item may follow what was received before, and is within the channel's horizon: a packet up to it, a mark up
    /// to one millisecond past it. Nothing is received after `End` or `Broken`.
    pub fn recv<R: Wait>(&mut self, rt: &R) -> Item
        requires { self.old.flow.end ≡ Open }
        ensures follows { MayFollow self.old.flow result }
        ensures within { IsUpTo self.old.horizon result }
        ensures flow { self.new.flow ≡ after self.old.flow result }
        ensures items { self.new.items ≡ self.old.items ++ result ∷ [] }
        ensures same { IsSameEnd self.old self.new }
    {
        for look in 0..LOOKS {
            if let Some(item) = self.receive_at_once(rt) {
                return item;
            }
            pause(look);
        }
        for _ in rt.forever() {
            if let Some(item) = self.receive_or_sleep(rt) {
                return item;
            }
        }
        unreachable!()
    }

    // Returns the first item and rings for the room, or returns `None` if the channel is empty.
    fn receive_at_once<R: Wait>(&mut self, rt: &R) -> Option<Item>
        ensures got { IfSome result (λ item. MayPass self.old item × (self.new ≡ with_item self.old item)) }
        ensures kept { IfNone result (self.new ≡ self.old) }
    {
        let item = self.end.try_recv_as::<Got, R>(rt, &mut self.pass).ok()?;
        self.bells.ring_for_room();
        Some(item)
    }

    // Returns the first item, or sleeps until the sender has sent some and returns `None`.
    fn receive_or_sleep<R: Wait>(&mut self, rt: &R) -> Option<Item>
        ensures got { IfSome result (λ item. MayPass self.old item × (self.new ≡ with_item self.old item)) }
        ensures kept { IfNone result (self.new ≡ self.old) }
    {
        let heard = self.bells.shared.sent.listen();
        let item = self.receive_at_once(rt);
        if item.is_some() {
            self.bells.shared.sent.leave();
        } else {
            self.bells.shared.sent.sleep(rt, heard);
        }
        item
    }
}
