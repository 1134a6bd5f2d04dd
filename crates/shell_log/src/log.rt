// Entries of a log, in order.
ghost use Rattle.std.specs.Prelude.{◌≡◌, ◌+◌, ◌≤◌, ◌++◌, ◌∷◌, [], length, OnOk, OnErr};
ghost use Rattle.shell_log.specs.Entries.{IsEntry, IsLog, AreUpTo, moment_of};

use crate::Entry;
use std::alloc::Global;
use std::marker::Model;
use text_base::OutOfMemory;

/// The log of one direction of a link: entries whose ranges are those of `Entry` and whose moments never decrease.
/// Contracts see its entries, and how many more may be added without memory.
#[derive(Drop)]
pub struct Log {
    list: Vec<Entry>,
    spare: usize,
}

impl Model for Log {
    ghost use Rattle.std.specs.Prelude.{◌+◌, ◌≤◌, vec_len, vec_capacity};
    ghost use Rattle.shell_log.specs.View.{LogView};
    ghost use Rattle.shell_log.specs.Entries.{IsLog};

    ghost Value = { LogView };

    ghost view = { λ l. record { entries = l.list.items; spare = l.spare } };

    ghost invariant = { λ l. IsLog l.list.items × (vec_len l.list + l.spare ≤ vec_capacity l.list) };
}

impl Log {
    /// A log without entries, with room for none.
    pub fn new(alloc: Global) -> Self
        ensures { result ≡ record { entries = []; spare = 0 } }
    {
        Log {
            list: Vec::new(alloc),
            spare: 0,
        }
    }

    /// Makes room for at least `n` more entries, or runs out of memory.
    pub fn reserve(&mut self, n: usize) -> Result<(), OutOfMemory>
        ensures same { self.new.entries ≡ self.old.entries }
        ensures ok { OnOk result (n ≤ self.new.spare) }
        ensures grows { self.old.spare ≤ self.new.spare }
        ensures err { OnErr result (self.new ≡ self.old) }
    {
        if self.spare < n {
            match self.list.reserve(n) {
                Ok(()) => self.spare = n,
                Err(_) => return Err(OutOfMemory),
            }
        }
        Ok(())
    }

    /// Adds an entry in range, not before the last one, for which there is room.
    #[tactic(auto, using(crate::proofs::LogLemmas::log_push, crate::proofs::LogLemmas::latest_push))]
    pub fn add(&mut self, e: Entry)
        requires spare { 1 ≤ self.old.spare }
        requires form { IsEntry e }
        requires order { AreUpTo (moment_of e) self.old.entries }
        ensures entries { self.new.entries ≡ self.old.entries ++ e ∷ [] }
        ensures spare { self.new.spare + 1 ≡ self.old.spare }
        ensures latest { AreUpTo (moment_of e) self.new.entries }
    {
        self.spare -= 1;
        self.list.push_reserved(e);
    }

    /// Lets all entries go. Their room is free for others.
    pub fn clear(&mut self)
        ensures entries { self.new.entries ≡ [] }
        ensures room { self.new.spare ≡ self.old.spare + length self.old.entries }
    {
        self.spare += self.list.len();
        self.list.clear();
    }

    /// The entries, in order.
    pub fn entries(&self) -> &[Entry]
        ensures entries { result.now ≡ self.now.entries }
        ensures order { IsLog self.now.entries }
    {
        self.list.as_slice()
    }
}
