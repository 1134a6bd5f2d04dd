// The arrivals of a link in one list: those that were let in, and those to come.
ghost use Rattle.std.specs.Prelude.{◌≡◌, ◌+◌, ◌<◌, ◌≤◌, ◌++◌, ◌∷◌, [], length, take, drop, MatchOption, OnOk, OnErr};

use packet_record::Timed;
use std::marker::Model;
use text_base::OutOfMemory;

/// Packets in order, of which the first `entered` were let in. Contracts see both halves, and how many more may be
/// added without memory.
#[derive(Drop)]
pub struct Arrivals {
    list: Vec<Timed>,
    entered: usize,
}

impl Model for Arrivals {
    ghost use Rattle.std.specs.Prelude.{◌-◌, ◌≤◌, length, take, drop, vec_len, vec_capacity};
    ghost use Rattle.link_core.specs.views.Arriving.{Arriving};

    ghost Value = { Arriving };

    ghost view = { λ a. record {
      come = take a.entered a.list.items;
      coming = drop a.entered a.list.items;
      room = vec_capacity a.list - vec_len a.list;
    } };

    ghost invariant = { λ a. a.entered ≤ length a.list.items };
}

impl Arrivals {
    /// The arrivals of `list`, all of which are to come.
    pub fn new(list: Vec<Timed>) -> Self
        ensures come { result.come ≡ [] }
        ensures coming { result.coming ≡ list.items }
    {
        Arrivals { list, entered: 0 }
    }

    /// The next packet to come. Returns `None` where none is.
    pub fn next(&self) -> Option<Timed>
        ensures { MatchOption result (self.now.coming ≡ []) (λ t. self.now.coming ≡ t ∷ drop 1 self.now.coming) }
    {
        if self.entered < self.list.len() {
            Some(self.list[self.entered])
        } else {
            None
        }
    }

    /// How many packets are to come.
    pub fn left(&self) -> usize
        ensures { result ≡ length self.now.coming }
    {
        self.list.len() - self.entered
    }

    /// Lets the next packet in.
    pub fn enter(&mut self)
        requires { 0 < length self.old.coming }
        ensures come { self.new.come ≡ self.old.come ++ take 1 self.old.coming }
        ensures coming { self.new.coming ≡ drop 1 self.old.coming }
    {
        self.entered += 1;
    }

    /// Makes room for `more` more packets, or runs out of memory.
    pub fn reserve(&mut self, more: usize) -> Result<(), OutOfMemory>
        ensures come { self.new.come ≡ self.old.come }
        ensures coming { self.new.coming ≡ self.old.coming }
        ensures ok { OnOk result (more ≤ self.new.room) }
    {
        self.list.reserve(more)?;
        Ok(())
    }

    /// Adds packets to come, or runs out of memory; then nothing has changed.
    pub fn extend(&mut self, packets: &[Timed]) -> Result<(), OutOfMemory>
        ensures come { self.new.come ≡ self.old.come }
        ensures coming { OnOk result (self.new.coming ≡ self.old.coming ++ packets.now) }
        ensures err { OnErr result (self.new.coming ≡ self.old.coming) }
    {
        self.list.extend_from_slice(packets)?;
        Ok(())
    }

    /// Lets go of the packets that were let in. No packet was to come.
    pub fn clear(&mut self)
        requires { self.old.coming ≡ [] }
        ensures come { self.new.come ≡ [] }
        ensures coming { self.new.coming ≡ [] }
    {
        self.list.clear();
        self.entered = 0;
    }

    /// Adds a packet to come, for which there is room.
    pub fn push(&mut self, t: Timed)
        requires { 1 ≤ self.old.room }
        ensures come { self.new.come ≡ self.old.come }
        ensures coming { self.new.coming ≡ self.old.coming ++ t ∷ [] }
    {
        self.list.push_reserved(t);
    }

    /// The packets that were let in.
    pub fn come(&self) -> &[Timed]
        ensures { result.now ≡ self.now.come }
    {
        &self.list[..self.entered]
    }

    /// All packets, those let in and those to come.
    pub fn into_list(self) -> Vec<Timed>
        ensures { result.items ≡ self.come ++ self.coming }
    {
        self.list
    }
}
