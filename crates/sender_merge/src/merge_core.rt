// The merge of flows, by what was added of them so far.
ghost use Rattle.std.specs.Prelude.{◌≡◌, ◌≤◌, ◌↔◌, ◌+◌, ℕ, IsTrue, length, OnOk, OnErr, IfOk};
ghost use Rattle.packet_record.specs.declared.item.FlowEnd.TheVariants.{Open};
ghost use Rattle.packet_record.specs.Streams.{MayFollow};
ghost use Rattle.packet_record.specs.Takes.{IsPacket};
ghost use Rattle.sender_merge.specs.inside.Lefts.{packets_in};

use crate::incoming::Incoming;
use crate::looks::{candidate, next_step, pass};
use crate::step::MergeStep;
use packet_record::{Flow, Item};
use std::alloc::Global;
use std::marker::Model;
use text_base::OutOfMemory;

/// The merge of the flows of 1 to 16 senders, item by item. It has the flow of each sender as far as it was added, and
/// the flow given. Senders are counted from 1.
///
/// The merge of flows has the packets of all, ordered by moment, then sender, then place. The packets given are a front
/// of the merge of all that the senders send, whatever the order in which items are added. Once the end was given, they
/// are that merge.
#[derive(Drop)]
pub struct MergeCore {
    senders: Vec<Incoming>,
    given: Flow,
    // How many packets were added and not given. The flow given has room for them.
    waiting: usize,
}

impl Model for MergeCore {
    ghost use Rattle.sender_merge.specs.Inflows.{Merging};

    ghost Value = { Merging };

    ghost use Rattle.sender_merge.specs.views.MergeCore.{merging_view};
    ghost use Rattle.sender_merge.specs.inside.Inside.{IsMergeCore};

    ghost view = { merging_view };

    ghost invariant = { IsMergeCore };
}

// Returns how many packets wait with one more item. Returns `OutOfMemory` if the count would overflow.
fn count_with(waiting: usize, item: &Item) -> Result<usize, OutOfMemory>
    ensures ok { IfOk result (λ n. n ≡ waiting + packets_in item.now) }
    ensures err { OnErr result (IsPacket item.now) }
{
    match item {
        Item::Packet(_) => waiting.checked_add(1).ok_or(OutOfMemory),
        Item::Mark(_) | Item::End | Item::Broken => Ok(waiting),
    }
}

impl MergeCore {
    ghost use Rattle.sender_merge.specs.Inflows.{after_add, new_merging, sender_at};
    ghost use Rattle.sender_merge.specs.Laws.{AllUpTo, IfNeeds, IsMergeFront, IsNeeded, IsStepUpTo, MayFollowStep};
    ghost use Rattle.sender_merge.specs.Steps.{after_step, next_step};

    /// Returns a merge of `senders` senders, 1 to 16, of which nothing was added. Returns `OutOfMemory` if an
    /// allocation fails.
    pub fn new(alloc: Global, senders: u32) -> Result<MergeCore, OutOfMemory>
        requires some { 1 ≤ senders }
        requires few { senders ≤ 16 }
        ensures new { IfOk result (λ m. m ≡ new_merging senders) }
        ensures front { IfOk result IsMergeFront }
    {
        let list = Incoming::new_list(alloc, senders)?;
        Ok(MergeCore {
            senders: list,
            given: Flow::new(alloc),
            waiting: 0,
        })
    }

    /// Returns the flow given.
    pub fn given(&self) -> &Flow
        ensures given { result.now.stream ≡ self.now.given }
        ensures front { IsMergeFront self.now }
    {
        &self.given
    }

    /// Returns how many senders there are.
    pub fn senders(&self) -> u32
        ensures { result ≡ length self.now.senders }
    {
        self.senders.len() as u32
    }

    /// Returns whether `sender` may send `item` next.
    pub fn may_add(&self, sender: u32, item: &Item) -> bool
        requires some { 1 ≤ sender }
        requires few { sender ≤ length self.now.senders }
        ensures { IsTrue result ↔ MayFollow (sender_at self.now.senders sender).flow item.now }
    {
        let incoming = &self.senders[sender as usize - 1];
        incoming.may_follow(item)
    }

    /// Adds `item`, which `sender` sends next, and takes the memory that `next` needs for it. Returns `OutOfMemory`
    /// only for a packet, and the merge is then unchanged.
    pub fn add(&mut self, sender: u32, item: Item) -> Result<(), OutOfMemory>
        requires some { 1 ≤ sender }
        requires few { sender ≤ length self.old.senders }
        requires follows { MayFollow (sender_at self.old.senders sender).flow item }
        ensures ok { OnOk result (self.new ≡ after_add self.old sender item) }
        ensures err { OnErr result ((self.new ≡ self.old) × IsPacket item) }
        ensures front { OnOk result (IsMergeFront self.new) }
    {
        let waiting = count_with(self.waiting, &item)?;
        self.given.reserve(waiting)?;
        let incoming = &mut self.senders[sender as usize - 1];
        incoming.add(item)?;
        self.waiting = waiting;
        Ok(())
    }

    /// Gives the next item, or says which sender's next item is needed first. The flow given is open. The first case
    /// that holds decides:
    ///
    /// - A sender was broken off: it gives `Item::Broken`.
    /// - There is a candidate, and all senders clear it: it gives the candidate's packet.
    /// - There is no candidate, and all senders have ended: it gives `Item::End`.
    /// - The merged bound is above the bound of the flow given: it gives a mark at the merged bound.
    /// - Otherwise it returns `Need`, with the least sender that hasn't ended, has no head and, if there is a
    ///   candidate, doesn't clear it.
    ///
    /// A sender's head is its first packet that wasn't given. The candidate is the head that is least by moment, then
    /// sender.
    ///
    /// A sender clears the candidate if it has a head, or has ended, or its bound is above the candidate's moment. If
    /// its bound is at that moment, it clears the candidate if its number is above that of the candidate's sender.
    ///
    /// The merged bound is the least, over the senders that haven't ended, of the head's moment, or of the bound where
    /// there is no head.
    ///
    /// It takes no memory.
    pub fn next(&mut self) -> MergeStep
        requires { self.old.given.end ≡ Open }
        ensures step { result ≡ next_step self.old }
        ensures after { self.new ≡ after_step self.old result }
        ensures front { IsMergeFront self.new }
        ensures follows { MayFollowStep self.old.given result }
        ensures needs { IfNeeds result (IsNeeded self.old.senders) }
        ensures within { (horizon : ℕ) → AllUpTo horizon self.old.senders → IsStepUpTo horizon result }
    {
        let senders = self.senders.as_slice();
        let head = candidate(senders);
        let step = next_step(&head, senders, self.given.bound());
        if let MergeStep::Item(item) = step {
            self.waiting -= pass(self.senders.as_mut_slice(), &item, &head);
            self.given.add(item);
        }
        step
    }
}
