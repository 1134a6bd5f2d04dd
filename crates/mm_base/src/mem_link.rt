// A link in memory, which fails by a list.
ghost use Rattle.std.specs.Prelude.{◌≡◌, ◌≤◌, ◌<◌, [], length, take, Some, IfOk, OnOk, OnErr, IsErrOf};
ghost use Rattle.std.specs.Option.{option_map};
ghost use Rattle.mm_base.specs.Counts.{Rose};
ghost use Rattle.mm_base.specs.Link.{CountsLinkFaults, after_read, after_write, read_begun, moved};
ghost use Rattle.mm_base.specs.MemLink.{mem_link_view, IsLinkCall, read_count};

use crate::fails::is_failing;
use crate::{EndError, Link, ReadStart};
use std::alloc::Global;
use std::marker::Model;
use text_base::Bytes;

/// A link in memory. It tells its bytes, counts its calls of `read` and `write` from 1, and fails exactly those that
/// its list names.
#[derive(Drop)]
pub struct MemLink {
    input: Bytes,
    at: usize,
    most: usize,
    given: Bytes,
    reads: Vec<ReadStart>,
    fails: Vec<u64>,
    calls: u64,
    faults: u64,
}

impl Model for MemLink {
    ghost use Rattle.std.specs.Prelude.{◌≤◌, length, take, drop};
    ghost use Rattle.mm_base.specs.MemLink.{MemLinkState};

    ghost Value = { MemLinkState };

    ghost view = { λ l. record {
      bytes = record { taken = take l.at l.input; rest = drop l.at l.input; given = l.given; reads = l.reads.items };
      most = l.most;
      fails = l.fails.items;
      calls = l.calls;
      faults = l.faults;
    } };

    ghost invariant = { λ l. (l.at ≤ length l.input) × (1 ≤ l.most) };
}

impl MemLink {
    /// A link with this input, of which a read gives at most `most` bytes, and whose calls of these numbers are to
    /// fail.
    pub fn new(alloc: Global, input: Bytes, most: usize, fails: Vec<u64>) -> Self
        requires { 1 ≤ most }
        ensures { result ≡ record {
          bytes = record { taken = []; rest = input; given = []; reads = [] };
          most = most;
          fails = fails.items;
          calls = 0;
          faults = 0;
        } }
    {
        MemLink {
            input,
            at: 0,
            most,
            given: Bytes::new(alloc),
            reads: Vec::new(alloc),
            fails,
            calls: 0,
            faults: 0,
        }
    }

    /// What was given.
    pub fn given(&self) -> &[u8]
        ensures { result.now ≡ self.now.bytes.given }
    {
        self.given.as_slice()
    }
}

impl Link for MemLink {
    ghost view = { mem_link_view };

    fn read(&mut self, buf: &mut [u8]) -> Result<usize, EndError>
        ensures call { IsLinkCall self.old self.new result }
        ensures exact { IfOk result (λ n. n ≡ read_count self.old buf.old) }
        ensures within { IfOk result (λ n. n ≤ length buf.old) }
        ensures front { IfOk result
            (λ n. (n ≤ length self.old.bytes.rest) × (take n buf.new ≡ take n self.old.bytes.rest)) }
        ensures end { IfOk result (λ n. n ≡ 0 → 0 < length buf.old → self.old.bytes.rest ≡ []) }
        ensures told { Some self.new.bytes ≡ option_map (after_read result) (Some self.old.bytes) }
        ensures counts { CountsLinkFaults (mem_link_view self.old) (mem_link_view self.new) }
        ensures failed_cause { IsErrOf result EndError.Failed → Rose self.old.faults self.new.faults }
    {
        let failing = is_failing(&mut self.calls, &self.fails);
        self.note_read()?;
        if failing {
            self.faults = self.faults.saturating_add(1);
            return Err(EndError::Failed);
        }
        Ok(self.fill(buf))
    }

    fn write(&mut self, piece: &[u8]) -> Result<usize, EndError>
        ensures call { IsLinkCall self.old self.new result }
        ensures exact { IfOk result (λ n. n ≡ length piece.now) }
        ensures within { IfOk result (λ n. n ≤ length piece.now) }
        ensures some { IfOk result (λ n. 0 < length piece.now → 0 < n) }
        ensures told { Some self.new.bytes ≡ option_map (after_write piece.now result) (Some self.old.bytes) }
        ensures counts { CountsLinkFaults (mem_link_view self.old) (mem_link_view self.new) }
        ensures failed_cause { IsErrOf result EndError.Failed → Rose self.old.faults self.new.faults }
    {
        if is_failing(&mut self.calls, &self.fails) {
            self.faults = self.faults.saturating_add(1);
            return Err(EndError::Failed);
        }
        self.given.append(piece)?;
        Ok(piece.len())
    }

    fn close_output(&mut self)
        ensures exact { self.new ≡ self.old }
        ensures same { mem_link_view self.new ≡ mem_link_view self.old }
    {}
}

impl MemLink {
    // A read begins.
    fn note_read(&mut self) -> Result<(), EndError>
        ensures ok { OnOk result (self.new ≡ record self.old { bytes = read_begun self.old.bytes }) }
        ensures err { OnErr result (self.new ≡ self.old) }
        ensures only { ¬ (IsErrOf result EndError.Failed) }
    {
        let start = ReadStart {
            taken: self.at,
            given: self.given.len(),
        };
        if self.reads.push(start).is_err() {
            return Err(EndError::OutOfMemory);
        }
        Ok(())
    }

    // Fills the start of a buffer with what a read gives, and returns how much.
    fn fill(&mut self, buf: &mut [u8]) -> usize
        ensures count { result ≡ read_count self.old buf.old }
        ensures front { take result buf.new ≡ take result self.old.bytes.rest }
        ensures moved { self.new ≡ record self.old { bytes = moved result self.old.bytes } }
    {
        let rest = &self.input.as_slice()[self.at..];
        let count = rest.len().min(buf.len()).min(self.most);
        buf[..count].copy_from_slice(&rest[..count]);
        self.at += count;
        count
    }
}
