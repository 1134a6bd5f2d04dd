// The packets that wait in a queue, whatever its limits are.
ghost use Rattle.std.specs.Prelude.{◌≡◌, ◌+◌, ◌^◌, ◌<◌, ◌≤◌, ◌++◌, ◌∷◌, [], length, map, ◌↔◌, IsSome, option_to_list};
ghost use Rattle.std.specs.Prelude.{vec_len, vec_capacity};
ghost use Rattle.std.specs.VecDeque.{deque_capacity};
ghost use Rattle.packet_record.specs.Packets.{bytes, moved_to};
ghost use Rattle.packet_queue.specs.Queues.{fitting, excess};

use crate::Dropped;
use crate::spec::QueueSpec;
use packet_record::Timed;
use std::alloc::Global;
use std::collections::VecDeque;

// The packets that wait, in order, and the sum of their sizes.
#[derive(Drop)]
pub(crate) struct Waiting {
    pub packets: VecDeque<Timed>,
    pub size: u64,
    ghost sum: { size ≡ bytes packets.items },
    ghost few: { length packets.items ≤ 2 ^ 40 },
}

#[tactic(auto, using(crate::proofs::Sizes::queue_steps))]
impl Waiting {
    // No packets.
    pub(crate) fn new(alloc: Global) -> Self
        ensures { result.packets.items ≡ [] }
    {
        Waiting {
            packets: VecDeque::new(alloc),
            size: 0,
        }
    }

    // Appends a packet. There is room for it.
    #[inline(always)]
    pub(crate) fn append(&mut self, t: Timed)
        requires few { length self.old.packets.items < 2 ^ 40 }
        requires room { length self.old.packets.items < deque_capacity self.old.packets }
        ensures packets { self.new.packets.items ≡ self.old.packets.items ++ t ∷ [] }
        ensures capacity { deque_capacity self.new.packets ≡ deque_capacity self.old.packets }
    {
        self.size += u64::from(t.packet.size);
        self.packets.push_back_reserved(t);
    }

    // Takes the first packet. Returns `None` exactly if none waits.
    #[inline(always)]
    pub(crate) fn pop(&mut self) -> Option<Timed>
        ensures packets { self.old.packets.items ≡ option_to_list result ++ self.new.packets.items }
        ensures none { IsSome result ↔ (0 < length self.old.packets.items) }
        ensures capacity { deque_capacity self.new.packets ≡ deque_capacity self.old.packets }
    {
        let first = self.packets.pop_front()?;
        self.size -= u64::from(first.packet.size);
        Some(first)
    }

    // Drops from the head until the rest fits, at this moment. There is room for all in the list of those dropped.
    pub(crate) fn shed(&mut self, spec: &QueueSpec, moment: u64, gone: &mut Vec<Timed>) -> Dropped
        requires { length self.old.packets.items + vec_len gone.old ≤ vec_capacity gone.old }
        ensures packets { self.new.packets.items ≡ fitting spec.now self.old.packets.items }
        ensures capacity { deque_capacity self.new.packets ≡ deque_capacity self.old.packets }
        ensures gone { gone.new.items
            ≡ gone.old.items ++ map (moved_to moment) (excess spec.now self.old.packets.items) }
        ensures room { length self.new.packets.items + vec_len gone.new
            ≡ length self.old.packets.items + vec_len gone.old }
        ensures keeps { vec_capacity gone.old ≤ vec_capacity gone.new }
        ensures dropped { result.packets ≡ length (excess spec.now self.old.packets.items) }
        ensures bytes { result.bytes ≡ bytes (excess spec.now self.old.packets.items) }
    {
        let mut dropped = Dropped::NOTHING;
        'heads: while !spec.fits(self.packets.len() as u64, self.size) {
            let Some(first) = self.pop() else {
                break;
            };
            dropped.packets += 1;
            dropped.bytes += u64::from(first.packet.size);
            gone.push_reserved(Timed {
                moment,
                packet: first.packet,
            });
        }
        dropped
    }
}
