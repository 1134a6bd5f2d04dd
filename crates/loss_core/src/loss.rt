// One direction of a loss shell, over the list of its arrivals.
ghost use Rattle.std.specs.Prelude.{◌≡◌, ℕ, [], OnOk, OnErr};

use crate::{Rate, Words};
use packet_record::Timed;
use std::alloc::Global;
use std::marker::Model;
use text_base::OutOfMemory;

/// One direction of a loss: each packet that arrives draws one word, in order, which says whether it is dropped or
/// passes at once.
#[derive(Drop)]
pub struct LossCore<W> {
    share: Rate,
    source: W,
    arrived: Vec<Timed>,
    gone: Vec<Timed>,
    left: Vec<Timed>,
}

impl<W> Model for LossCore<W> {
    ghost use Rattle.loss_core.specs.Cores.{Loss};

    ghost Value = { Loss W };

    ghost view = { λ c. record {
      rate = c.share;
      words = c.source;
      arrivals = c.arrived.items;
      lost = c.gone.items;
      departed = c.left.items;
    } };
}

impl<W: Words> LossCore<W> {
    ghost use Rattle.loss_core.specs.Cores.{Loss, Arrives, Stands};

    /// The loss before any arrival.
    pub fn new(alloc: Global, rate: Rate, words: W) -> LossCore<W>
        ensures is { result ≡ record { rate = rate; words = words; arrivals = []; lost = []; departed = [] } }
        ensures stands { (word : ℕ → ℕ) → ((k : ℕ) → W.word words k ≡ word k) → Stands W.word result word }
    {
        LossCore {
            share: rate,
            source: words,
            arrived: Vec::new(alloc),
            gone: Vec::new(alloc),
            left: Vec::new(alloc),
        }
    }

    /// Draws a word for the packet: where `word * 1000000000 < rate * 4294967296` it is lost, else it departs at the
    /// moment of its arrival. Where it runs out of memory it has drawn no word, and nothing has changed.
    pub fn arrive(&mut self, t: Timed) -> Result<(), OutOfMemory>
        ensures ok { OnOk result (Arrives W.word self.old t self.new) }
        ensures stands { (word : ℕ → ℕ) → Stands W.word self.old word → Stands W.word self.new word }
        ensures err { OnErr result (self.new ≡ self.old) }
    {
        self.arrived.reserve(1)?;
        self.gone.reserve(1)?;
        self.left.reserve(1)?;
        self.arrived.push_reserved(t);
        let word = self.source.next();
        if self.share.drops(word) {
            self.gone.push_reserved(t);
        } else {
            self.left.push_reserved(t);
        }
        Ok(())
    }

    /// All packets that arrived, in order.
    pub fn arrivals(&self) -> &[Timed]
        ensures { result.now ≡ self.now.arrivals }
    {
        self.arrived.as_slice()
    }

    /// The packets that passed, in order.
    pub fn departed(&self) -> &[Timed]
        ensures { result.now ≡ self.now.departed }
    {
        self.left.as_slice()
    }

    /// The packets that were dropped, in order, each with the moment of its arrival.
    pub fn lost(&self) -> &[Timed]
        ensures { result.now ≡ self.now.lost }
    {
        self.gone.as_slice()
    }
}

impl<W: Words + Drop> LossCore<W> {
    /// Gives the loss up for its lists, which aren't copied: the packets that passed, and those that were dropped.
    pub fn into_lists(self) -> (Vec<Timed>, Vec<Timed>)
        ensures departed { result.0.items ≡ self.departed }
        ensures lost { result.1.items ≡ self.lost }
    {
        (self.left, self.gone)
    }
}
