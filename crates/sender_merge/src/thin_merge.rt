// The merge of flows that keeps no packet once it was given.
ghost use Rattle.std.specs.Prelude.{◌≡◌, ◌≤◌, length, IfOk, OnErr, OnOk};
ghost use Rattle.packet_record.specs.declared.item.FlowEnd.TheVariants.{Open};
ghost use Rattle.packet_record.specs.Streams.{MayFollow};
ghost use Rattle.packet_record.specs.Takes.{IsPacket};
ghost use Rattle.sender_merge.specs.Inflows.{Merging, after_add, new_merging, sender_at};
ghost use Rattle.sender_merge.specs.Steps.{after_step, candidate as candidate_of, next_step as next_step_of};
ghost use Rattle.sender_merge.specs.inside.Standing.{Stands};
ghost use Rattle.sender_merge.specs.inside.Thins.{IsThin, senders_left};

use crate::incoming::Incoming;
use crate::looks::{candidate, next_step};
use crate::step::{Head, MergeStep};
use packet_record::{Item, Reach};
use std::alloc::Global;
use text_base::OutOfMemory;

// The merge that a `MergeCore` makes, item by item, without the packets that were given.
#[derive(Drop)]
pub(crate) struct ThinMerge {
    // The senders. Each has the packets that were added and not given. What was given is forgotten, so no packet that a
    // sender has was given: its `passed` is always 0.
    pub senders: Vec<Incoming>,
    // How far the flow given has come.
    pub given: Reach,
}

impl ThinMerge {
    // Returns a merge of `senders` senders of which nothing was added.
    pub fn new(alloc: Global, senders: u32) -> Result<ThinMerge, OutOfMemory>
        ensures { IfOk result (λ core. IsThin (new_merging senders) core) }
    {
        let list = Incoming::new_list(alloc, senders)?;
        Ok(ThinMerge {
            senders: list,
            given: Reach::new(),
        })
    }

    // Adds `item`, which `sender`, counted from 1, sends next. Returns `OutOfMemory` only for a packet, and the merge
    // is then unchanged.
    pub fn add(&mut self, sender: u32, item: Item) -> Result<(), OutOfMemory>
        requires some { 1 ≤ sender }
        requires few { sender ≤ length self.old.senders.items }
        requires follows { MayFollow (sender_at self.old.senders.items sender).flow item }
        ensures ok { OnOk result ((m : Merging) → Stands m → IsThin m self.old
            → IsThin (after_add m sender item) self.new) }
        ensures err { OnErr result (((m : Merging) → IsThin m self.old → IsThin m self.new) × IsPacket item) }
    {
        let incoming = &mut self.senders[sender as usize - 1];
        incoming.add(item)
    }

    // Gives the next item, or says which sender's next item is needed first, as `MergeCore::next` does. A packet that
    // is given is forgotten. It takes no memory.
    pub fn next(&mut self) -> MergeStep
        requires few { length self.old.senders.items ≤ 16 }
        requires going { (m : Merging) × Stands m × IsThin m self.old × (m.given.end ≡ Open) }
        ensures step { (m : Merging) → IsThin m self.old → result ≡ next_step_of m }
        ensures after { (m : Merging) → IsThin m self.old → IsThin (after_step m result) self.new }
    {
        let senders = self.senders.as_slice();
        let head = candidate(senders);
        let step = next_step(&head, senders, self.given.bound);
        if let MergeStep::Item(item) = step {
            forget(self.senders.as_mut_slice(), &item, &head);
            self.given.add(item);
        }
        step
    }
}

// Forgets the candidate if `item` is a packet.
fn forget(senders: &mut [Incoming], item: &Item, candidate: &Option<Head>)
    requires few { length senders.old ≤ 16 }
    requires candidate { candidate.now ≡ candidate_of senders.old }
    ensures { senders.new ≡ senders_left senders.old item.now }
{
    if let (Item::Packet(_), Some(head)) = (item, candidate) {
        let incoming = &mut senders[head.sender as usize - 1];
        incoming.forget();
    }
}
