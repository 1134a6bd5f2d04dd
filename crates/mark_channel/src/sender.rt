// The sending end of a channel.
ghost use Rattle.std.specs.Prelude.{◌≡◌, ◌++◌, ◌∷◌, [], IsTrue, IsFalse};
ghost use Rattle.packet_record.specs.Streams.{after, MayFollow, IsUpTo};
ghost use Rattle.mark_channel.specs.Ends.{IsSameEnd};
ghost use Rattle.mark_channel.specs.inside.Ends.{MayPass, with_item};

use crate::bell::{LOOKS, pause};
use crate::bells::EndBells;
use crate::rule::{InOrder, Sent, View};
use crossbeam_channel::{Pass, RuledSender};
use packet_record::Item;
use std::marker::Model;
use std::sync::Wait;

/// The sending end of a channel. Contracts see the stream of what was sent, its items, the horizon and the channel.
#[derive(Drop)]
pub struct Sender {
    pub(crate) end: RuledSender<Item, View, InOrder>,
    pub(crate) pass: Pass<Item, View>,
    pub(crate) bells: EndBells,
}

impl Model for Sender {
    ghost use Rattle.mark_channel.specs.Ends.{End};

    ghost Value = { End };

    ghost use Rattle.mark_channel.specs.views.Sides.{sender_view};
    ghost use Rattle.mark_channel.specs.inside.Sides.{IsSender};

    ghost view = { sender_view };

    ghost invariant = { IsSender };
}

impl Sender {
    /// Waits for room, and adds the item at the end of what was sent. It takes no memory.
    ///
    /// The item may follow what was sent before, and is within the channel's horizon: a packet up to it, a mark up to
    /// one millisecond past it. Nothing is promised of how long it waits: a sender whose receiver is gone may wait
    /// forever.
    pub fn send<R: Wait>(&mut self, rt: &R, item: Item)
        requires follows { MayFollow self.old.flow item }
        requires within { IsUpTo self.old.horizon item }
        ensures flow { self.new.flow ≡ after self.old.flow item }
        ensures items { self.new.items ≡ self.old.items ++ item ∷ [] }
        ensures same { IsSameEnd self.old self.new }
    {
        if self.send_soon(rt, item) {
            return;
        }
        for _ in rt.forever() {
            if self.send_or_sleep(rt, item) {
                return;
            }
        }
        unreachable!()
    }

    /// Sends the item as `send` does. Before it sleeps, it wakes the receiver of `other` if that sleeps: the thread
    /// that is to make room here may be waiting for what `other` has sent.
    pub fn send_beside<R: Wait>(&mut self, rt: &R, item: Item, other: &Sender)
        requires follows { MayFollow self.old.flow item }
        requires within { IsUpTo self.old.horizon item }
        ensures flow { self.new.flow ≡ after self.old.flow item }
        ensures items { self.new.items ≡ self.old.items ++ item ∷ [] }
        ensures same { IsSameEnd self.old self.new }
    {
        if self.send_soon(rt, item) {
            return;
        }
        other.bells.ring_owed();
        self.send(rt, item);
    }

    // Sends the item if there is room within `LOOKS` looks. Returns whether it did.
    fn send_soon<R: Wait>(&mut self, rt: &R, item: Item) -> bool
        requires { MayPass self.old item }
        ensures sent { IsTrue result → self.new ≡ with_item self.old item }
        ensures kept { IsFalse result → self.new ≡ self.old }
    {
        for look in 0..LOOKS {
            if self.send_at_once(rt, item) {
                return true;
            }
            pause(look);
        }
        false
    }

    // Sends the item if there is room, and rings for it. Returns whether it did.
    fn send_at_once<R: Wait>(&mut self, rt: &R, item: Item) -> bool
        requires { MayPass self.old item }
        ensures sent { IsTrue result → self.new ≡ with_item self.old item }
        ensures kept { IsFalse result → self.new ≡ self.old }
    {
        let is_sent = self
            .end
            .try_send_as::<Sent, R>(rt, &mut self.pass, item)
            .is_ok();
        if is_sent {
            self.bells.ring_for(&item);
        }
        is_sent
    }

    // Sends the item if there is room. Otherwise sleeps until the receiver has made some. Returns whether it sent.
    fn send_or_sleep<R: Wait>(&mut self, rt: &R, item: Item) -> bool
        requires { MayPass self.old item }
        ensures sent { IsTrue result → self.new ≡ with_item self.old item }
        ensures kept { IsFalse result → self.new ≡ self.old }
    {
        let heard = self.bells.shared.received.listen();
        let is_sent = self.send_at_once(rt, item);
        if is_sent {
            self.bells.shared.received.leave();
        } else {
            self.bells.shared.received.sleep(rt, heard);
        }
        is_sent
    }
}
