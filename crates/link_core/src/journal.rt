// What a link writes down while it runs: the entries of its log, or nothing.
ghost use Rattle.std.specs.Prelude.{◌≡◌, ◌+◌, ◌≤◌, ◌++◌, ◌∷◌, [], length, OnOk};
ghost use Rattle.shell_log.specs.Entries.{AreUpTo, IsEntry, moment_of};
ghost use Rattle.link_core.specs.inside.Written.{written};

use shell_log::{Entry, Log};
use std::alloc::Global;
use std::marker::Model;
use text_base::OutOfMemory;

/// The entries that a link writes down. Where it keeps no log, it keeps no entry and takes no memory.
#[derive(Drop)]
pub struct Journal {
    kept: bool,
    log: Log,
}

impl Model for Journal {
    ghost use Rattle.link_core.specs.views.Written.{KeptLog, room_of};

    ghost Value = { KeptLog };

    ghost view = { λ j. record { kept = j.kept; entries = j.log.entries; spare = room_of j.kept j.log.spare } };
}

impl Journal {
    pub fn new(alloc: Global, kept: bool) -> Self
        ensures kept { result.kept ≡ kept }
        ensures entries { result.entries ≡ [] }
    {
        Journal {
            kept,
            log: Log::new(alloc),
        }
    }

    /// Whether entries are kept.
    pub fn is_kept(&self) -> bool
        ensures { result ≡ self.now.kept }
    {
        self.kept
    }

    /// How many entries are in hand.
    pub fn len(&self) -> usize
        ensures { result ≡ length self.now.entries }
    {
        self.log.entries().len()
    }

    /// Lets all entries go.
    pub fn clear(&mut self)
        ensures kept { self.new.kept ≡ self.old.kept }
        ensures entries { self.new.entries ≡ [] }
    {
        self.log.clear();
    }

    /// Makes room for at least `n` more entries, or runs out of memory.
    pub fn reserve(&mut self, n: usize) -> Result<(), OutOfMemory>
        ensures kept { self.new.kept ≡ self.old.kept }
        ensures same { self.new.entries ≡ self.old.entries }
        ensures ok { OnOk result (n ≤ self.new.spare) }
    {
        if !self.kept {
            return Ok(());
        }
        self.log.reserve(n)
    }

    /// Writes down an entry for which there is room, and which isn't before the last one.
    pub fn add(&mut self, e: Entry)
        requires spare { 1 ≤ self.old.spare }
        requires form { IsEntry e }
        requires order { AreUpTo (moment_of e) self.old.entries }
        ensures kept { self.new.kept ≡ self.old.kept }
        ensures entries { self.new.entries ≡ self.old.entries ++ written self.old.kept (e ∷ []) }
        ensures spare { self.old.spare ≤ self.new.spare + 1 }
        ensures latest { AreUpTo (moment_of e) self.new.entries }
    {
        if self.kept {
            self.log.add(e);
        }
    }

    /// The entries that were kept, in order.
    pub fn log(&self) -> &Log
        ensures { result.now.entries ≡ self.now.entries }
    {
        &self.log
    }

    pub fn into_log(self) -> Log
        ensures { result.entries ≡ self.entries }
    {
        self.log
    }
}
