// A queue of packets that may drop some.
ghost use Rattle.std.specs.Prelude.{◌≡◌, ◌+◌, ◌-◌, ◌*◌, ◌^◌, ◌<◌, ◌≤◌, ◌++◌, ◌∷◌, [], length, map, IfOk};
ghost use Rattle.std.specs.Prelude.{OnOk, OnErr, ◌↔◌, IsSome, option_to_list, vec_len, vec_capacity};
ghost use Rattle.std.specs.VecDeque.{deque_capacity};
ghost use Rattle.packet_record.specs.Packets.{bytes, moved_to};
ghost use Rattle.packet_queue.specs.Queues.{fits, fitting, excess, enqueued, dropped};
ghost use Rattle.packet_queue.specs.View.{Queue};
ghost use Rattle.packet_queue.specs.inside.Kept.{AreKept};

use crate::spec::{QueueKind, QueueSpec};
use crate::waiting::Waiting;
use packet_record::Timed;
use std::alloc::Global;
use std::marker::Model;
use text_base::OutOfMemory;

/// What one arrival dropped: how many packets, and their bytes.
#[derive(Clone, Copy, PartialEq, Eq)]
pub struct Dropped {
    /// How many packets.
    pub packets: u64,
    /// The sum of their sizes.
    pub bytes: u64,
}

impl Dropped {
    pub(crate) const NOTHING: Dropped = Dropped {
        packets: 0,
        bytes: 0,
    };
}

/// The packets that wait at a link, in order, and those that were dropped.
///
/// Contracts see its specification, the packets that wait, those lost so far, each at the moment of its drop, and
/// how many more may be enqueued without memory.
#[derive(Drop)]
pub struct PacketQueue {
    spec: QueueSpec,
    waiting: Waiting,
    gone: Vec<Timed>,
    spare: usize,
}

impl Model for PacketQueue {
    ghost use Rattle.std.specs.Prelude.{◌≡◌, ◌+◌, ◌^◌, ◌≤◌, length, vec_len, vec_capacity};
    ghost use Rattle.std.specs.VecDeque.{deque_capacity};
    ghost use Rattle.packet_queue.specs.View.{Queue};
    ghost use Rattle.packet_queue.specs.inside.Kept.{AreKept};

    ghost Value = { Queue };

    ghost view = { λ q. record { spec = q.spec; packets = q.waiting.packets.items; lost = q.gone.items; spare = q.spare } };

    ghost invariant = { λ q. AreKept q.spec q.waiting.packets.items
        × (q.spare + length q.waiting.packets.items ≤ 2 ^ 40)
        × (q.spare + length q.waiting.packets.items ≤ deque_capacity q.waiting.packets)
        × (q.spare + length q.waiting.packets.items + vec_len q.gone ≤ vec_capacity q.gone) };
}

#[tactic(auto, using(crate::proofs::Sizes::queue_steps))]
impl PacketQueue {
    /// An empty queue, with room for no packet.
    pub fn new(alloc: Global, spec: QueueSpec) -> Self
        ensures { result ≡ record { spec = spec; packets = []; lost = []; spare = 0 } }
    {
        PacketQueue {
            spec,
            waiting: Waiting::new(alloc),
            gone: Vec::new(alloc),
            spare: 0,
        }
    }

    /// What the queue does, and its limits.
    pub fn spec(&self) -> QueueSpec
        ensures { result ≡ self.now.spec }
    {
        self.spec
    }

    /// How many packets wait.
    pub fn len(&self) -> usize
        ensures len { result ≡ length self.now.packets }
        ensures few { result ≤ 2 ^ 40 }
    {
        self.waiting.packets.len()
    }

    /// The sum of the sizes of the packets that wait.
    pub fn bytes(&self) -> u128
        ensures { result ≡ bytes self.now.packets }
    {
        u128::from(self.waiting.size)
    }

    /// The numbers of the packets that wait, in order, or out of memory.
    pub fn ids(&self, alloc: Global) -> Result<Vec<u32>, OutOfMemory>
        ensures { IfOk result (λ ids. ids.items ≡ map (λ t. t.packet.id) self.now.packets) }
    {
        let ids = self
            .waiting
            .packets
            .iter()
            .map(|t| t.packet.id)
            .collect(alloc)?;
        Ok(ids)
    }

    /// All packets dropped so far, in order, each at the moment of the arrival that dropped it.
    pub fn lost(&self) -> &[Timed]
        ensures { result.now ≡ self.now.lost }
    {
        self.gone.as_slice()
    }

    /// Gives up the queue for the list of all packets dropped so far.
    pub fn into_lost(self) -> Vec<Timed>
        ensures { result.items ≡ self.lost }
    {
        self.gone
    }

    /// Makes room for at least `n` more packets, or runs out of memory. Beyond 2^40 packets it always does, so that
    /// the sum of their sizes fits 64 bits.
    pub fn reserve(&mut self, n: usize) -> Result<(), OutOfMemory>
        ensures ok { OnOk result (n ≤ self.new.spare) }
        ensures err { OnErr result (self.new ≡ self.old) }
        ensures same { self.new ≡ record self.old { spare = self.new.spare } }
        ensures grows { self.old.spare ≤ self.new.spare }
    {
        if n <= self.spare {
            return Ok(());
        }
        let held = self.waiting.packets.len();
        let free = MOST - held;
        if n > free {
            return Err(OutOfMemory);
        }
        let room = n.max(AT_ONCE).min(free);
        self.waiting.packets.reserve(room)?;
        self.gone.reserve(held + room)?;
        self.spare = room;
        Ok(())
    }

    /// Takes the first packet. Returns `None` exactly if none waits.
    pub fn dequeue(&mut self) -> Option<Timed>
        ensures packets { self.old.packets ≡ option_to_list result ++ self.new.packets }
        ensures none { IsSome result ↔ (0 < length self.old.packets) }
        ensures same { self.new ≡ record self.old { packets = self.new.packets } }
    {
        self.waiting.pop()
    }

    /// Lets in a packet that arrives at its moment, and returns what this dropped.
    ///
    /// An infinite queue drops nothing. Droptail drops the new packet if the queue with it would pass a limit.
    /// Drophead appends it, and drops from the head until no limit is passed. (Manual page of mm-link.)
    pub fn enqueue(&mut self, t: Timed) -> Dropped
        requires { 1 ≤ self.old.spare }
        ensures queue { let out = dropped self.old.spec self.old.packets t in
            self.new
            ≡ record {
              spec = self.old.spec;
              packets = enqueued self.old.spec self.old.packets t;
              lost = self.old.lost ++ map (moved_to t.moment) out;
              spare = self.old.spare - 1;
            } }
        ensures packets { result.packets ≡ length (dropped self.old.spec self.old.packets t) }
        ensures bytes { result.bytes ≡ bytes (dropped self.old.spec self.old.packets t) }
        ensures few { result.bytes ≤ 3008 }
    {
        match self.spec.kind {
            QueueKind::Infinite => {
                self.add(t);
                Dropped::NOTHING
            }
            QueueKind::DropTail => {
                if self.would_fit(t) {
                    self.add(t);
                    Dropped::NOTHING
                } else {
                    self.refuse(t)
                }
            }
            QueueKind::DropHead => self.push_out(t),
        }
    }

    fn would_fit(&self, t: Timed) -> bool
        requires { 1 ≤ self.now.spare }
        ensures { result ≡ fits self.now.spec (self.now.packets ++ t ∷ []) }
    {
        let packets = self.waiting.packets.len() as u64 + 1;
        let size = self.waiting.size + u64::from(t.packet.size);
        self.spec.fits(packets, size)
    }

    #[inline(always)]
    fn add(&mut self, t: Timed)
        requires spare { 1 ≤ self.old.spare }
        requires kept { AreKept self.old.spec (self.old.packets ++ t ∷ []) }
        ensures { self.new ≡ record self.old { packets = self.old.packets ++ t ∷ []; spare = self.old.spare - 1 } }
    {
        self.waiting.append(t);
        self.spare -= 1;
    }

    fn refuse(&mut self, t: Timed) -> Dropped
        requires { 1 ≤ self.old.spare }
        ensures queue { self.new ≡ record self.old {
          lost = self.old.lost ++ moved_to t.moment t ∷ [];
          spare = self.old.spare - 1;
        } }
        ensures packets { result.packets ≡ 1 }
        ensures bytes { result.bytes ≡ t.packet.size }
    {
        self.gone.push_reserved(t);
        self.spare -= 1;
        Dropped {
            packets: 1,
            bytes: u64::from(t.packet.size),
        }
    }

    // Appends the packet, and drops from the head.
    #[tactic(auto, using(crate::proofs::Sizes::queue_steps, crate::proofs::Limits::kept_fitting))]
    fn push_out(&mut self, t: Timed) -> Dropped
        requires { 1 ≤ self.old.spare }
        ensures queue { self.new
            ≡ record {
              spec = self.old.spec;
              packets = fitting self.old.spec (self.old.packets ++ t ∷ []);
              lost = self.old.lost ++ map (moved_to t.moment) (excess self.old.spec (self.old.packets ++ t ∷ []));
              spare = self.old.spare - 1;
            } }
        ensures packets { result.packets ≡ length (excess self.old.spec (self.old.packets ++ t ∷ [])) }
        ensures bytes { result.bytes ≡ bytes (excess self.old.spec (self.old.packets ++ t ∷ [])) }
    {
        self.waiting.append(t);
        self.spare -= 1;
        self.waiting.shed(&self.spec, t.moment, &mut self.gone)
    }
}

// How many packets wait at most: far more than there is memory for, so that the sum of their sizes fits 64 bits.
const MOST: usize = 1 << 40;

// For how many packets room is made at once.
const AT_ONCE: usize = 64;
