// The packets inside a link: the one in transit, and the queue behind it.
ghost use Rattle.std.specs.Prelude.{◌≡◌, ◌+◌, ◌<◌, ◌≤◌, ◌++◌, Option, Some, None, [], MatchOption, option_to_list};
ghost use Rattle.std.specs.Prelude.{length, map, ◌^◌, IfOk};
ghost use Rattle.packet_queue.specs.Queues.{dropped};
ghost use Rattle.link_core.specs.inside.Stream.{carried, rest, begun};
ghost use Rattle.link_core.specs.inside.State.{IsPart, IsIdle, inside_buffer};

use packet_queue::PacketQueue;
use packet_record::Timed;
use std::alloc::Global;
use text_base::OutOfMemory;

/// The packet in transit, of which `used` bytes have gone, and the queue behind it.
#[derive(Drop)]
pub struct Buffer {
    pub packet: Option<Timed>,
    pub used: u64,
    pub queue: PacketQueue,
}

impl Buffer {
    /// How many packets are inside.
    pub fn len(&self) -> usize
        ensures len { result ≡ length (inside_buffer self.now) }
        ensures few { result ≤ 2 ^ 40 + 1 }
    {
        match self.packet {
            Some(_) => self.queue.len() + 1,
            None => self.queue.len(),
        }
    }

    /// The numbers of the packets inside, the one in transit first, or out of memory.
    pub fn ids(&self, alloc: Global) -> Result<Vec<u32>, OutOfMemory>
        ensures { IfOk result (λ ids. ids.items ≡ map (λ t. t.packet.id) (inside_buffer self.now)) }
    {
        let mut ids = self.queue.ids(alloc)?;
        if let Some(t) = self.packet {
            ids.insert(0, t.packet.id)?;
        }
        Ok(ids)
    }

    // Takes the packet in transit, or the queue's first.
    fn head(&mut self) -> Option<Timed>
        requires { IsPart self.old.packet self.old.used }
        ensures inside { inside_buffer self.old ≡ option_to_list result ++ self.new.queue.packets }
        ensures packet { self.new.packet ≡ None }
        ensures used { self.new.used ≡ self.old.used }
        ensures part { MatchOption result ((self.old.used ≡ 0) × (self.new.queue.packets ≡ []))
            (λ t. self.old.used < t.packet.size) }
        ensures queue { self.new.queue ≡ record self.old.queue { packets = self.new.queue.packets } }
    {
        match self.packet {
            Some(t) => {
                self.packet = None;
                Some(t)
            }
            None => self.queue.dequeue(),
        }
    }

    /// Carries up to `room` bytes of the next packet, which `room` has less then. Returns the packet where its last
    /// byte has gone.
    #[tactic(auto, using(crate::proofs::IdleLemmas::is_idle))]
    pub fn carry(&mut self, room: &mut u64) -> Option<Timed>
        requires { IsPart self.old.packet self.old.used }
        ensures part { IsPart self.new.packet self.new.used }
        ensures front { inside_buffer self.old ≡ option_to_list result ++ inside_buffer self.new }
        ensures carried { carried (self.old.used + room.old) (inside_buffer self.old)
            ≡ option_to_list result ++ carried (self.new.used + room.new) (inside_buffer self.new) }
        ensures rest { rest (self.old.used + room.old) (inside_buffer self.old)
            ≡ rest (self.new.used + room.new) (inside_buffer self.new) }
        ensures begun { begun (self.old.used + room.old) (inside_buffer self.old)
            ≡ begun (self.new.used + room.new) (inside_buffer self.new) }
        ensures idle { MatchOption result (IsIdle (self.new.used + room.new) self.new.used (inside_buffer self.new))
            (λ _. room.new < room.old) }
        ensures queue { self.new.queue ≡ record self.old.queue { packets = self.new.queue.packets } }
    {
        if *room == 0 {
            return None;
        }
        let Some(first) = self.head() else {
            return None;
        };
        let left = first.packet.size as u64 - self.used;
        if left <= *room {
            *room -= left;
            self.used = 0;
            Some(first)
        } else {
            self.used += *room;
            self.packet = Some(first);
            *room = 0;
            None
        }
    }
}
