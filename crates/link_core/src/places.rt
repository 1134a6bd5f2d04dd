// The packets of a link in one list, in which what departs takes the places of what arrived.
ghost use Rattle.std.specs.Prelude.{◌≡◌, ◌+◌, ◌<◌, ◌≤◌, ◌++◌, ℕ, [], length, take, drop};

use packet_record::Timed;
use std::marker::Model;

// How many packets are let in, at most, before what departed is put in their places.
const PIECE_PACKETS: usize = 1024;

/// Packets in order: those that departed, and those that are to arrive. What stands between them is stale. Contracts see
/// both, and how many have arrived.
#[derive(Drop)]
pub struct Places {
    list: Vec<Timed>,
    departed: usize,
    entered: usize,
}

// Writes packets over those from `start` on.
fn write_over(list: &mut [Timed], start: usize, packets: &[Timed])
    requires { start + length packets.now ≤ length list.old }
    ensures front { take (start + length packets.now) list.new ≡ take start list.old ++ packets.now }
    ensures behind { (n : ℕ) → start + length packets.now ≤ n → drop n list.new ≡ drop n list.old }
    ensures length { length list.new ≡ length list.old }
{
    list[start..start + packets.len()].copy_from_slice(packets);
}

impl Model for Places {
    ghost use Rattle.std.specs.Prelude.{◌≤◌, length, take, drop};
    ghost use Rattle.link_core.specs.views.Placed.{Placed};

    ghost Value = { Placed };

    ghost view = { λ p. record {
      departed = take p.departed p.list.items;
      coming = drop p.entered p.list.items;
      entered = p.entered;
    } };

    ghost invariant = { λ p. (p.departed ≤ p.entered) × (p.entered ≤ length p.list.items) };
}

impl Places {
    /// The packets of `list`, all of which are to arrive.
    pub fn new(list: Vec<Timed>) -> Self
        ensures departed { result.departed ≡ [] }
        ensures coming { result.coming ≡ list.items }
        ensures entered { result.entered ≡ 0 }
    {
        Places {
            list,
            departed: 0,
            entered: 0,
        }
    }

    /// How many packets are to arrive.
    pub fn left(&self) -> usize
        ensures { result ≡ length self.now.coming }
    {
        self.list.len() - self.entered
    }

    /// The next packets to arrive: at most `PIECE_PACKETS`.
    pub fn next_piece(&self) -> &[Timed]
        ensures front { self.now.coming ≡ result.now ++ drop (length result.now) self.now.coming }
        ensures some { 0 < length self.now.coming → 0 < length result.now }
    {
        let end = self.list.len().min(self.entered + PIECE_PACKETS);
        &self.list[self.entered..end]
    }

    /// Counts the next `count` packets as arrived.
    pub fn enter(&mut self, count: usize)
        requires { count ≤ length self.old.coming }
        ensures departed { self.new.departed ≡ self.old.departed }
        ensures coming { self.new.coming ≡ drop count self.old.coming }
        ensures entered { self.new.entered ≡ self.old.entered + count }
    {
        self.entered += count;
    }

    /// Puts packets that departed in the places of packets that arrived.
    pub fn put(&mut self, packets: &[Timed])
        requires { length self.old.departed + length packets.now ≤ self.old.entered }
        ensures departed { self.new.departed ≡ self.old.departed ++ packets.now }
        ensures coming { self.new.coming ≡ self.old.coming }
        ensures entered { self.new.entered ≡ self.old.entered }
    {
        write_over(self.list.as_mut_slice(), self.departed, packets);
        self.departed += packets.len();
    }

    /// The packets that departed.
    pub fn into_departed(self) -> Vec<Timed>
        ensures { result.items ≡ self.departed }
    {
        let mut list = self.list;
        list.truncate(self.departed);
        list
    }
}
