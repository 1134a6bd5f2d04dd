// A sink in memory, which fails by a list.
ghost use Rattle.std.specs.Prelude.{◌≡◌, ◌≤◌, ◌<◌, [], length, take, Some, IfOk, OnErr, IsErrOf};
ghost use Rattle.mm_base.specs.Counts.{Rose};
ghost use Rattle.mm_base.specs.MemSink.{MemSinkState, mem_sink_view, IsMemWrite};
ghost use Rattle.mm_base.specs.Sink.{sending, CountsSinkFaults};

use crate::fails::is_failing;
use crate::{EndError, Sink};
use std::alloc::Global;
use std::marker::Model;
use text_base::Bytes;

/// A sink in memory. It tells what was written, counts its calls from 1, and fails exactly those that its list
/// names.
#[derive(Drop)]
pub struct MemSink {
    bytes: Bytes,
    fails: Vec<u64>,
    calls: u64,
    faults: u64,
}

impl Model for MemSink {
    ghost Value = { MemSinkState };

    ghost view = { λ s. record { written = s.bytes; fails = s.fails.items; calls = s.calls; faults = s.faults } };
}

impl MemSink {
    /// A sink on which nothing was written, and whose calls of these numbers are to fail.
    pub fn new(alloc: Global, fails: Vec<u64>) -> Self
        ensures { result ≡ record { written = []; fails = fails.items; calls = 0; faults = 0 } }
    {
        MemSink {
            bytes: Bytes::new(alloc),
            fails,
            calls: 0,
            faults: 0,
        }
    }

    /// What was written.
    pub fn written(&self) -> &[u8]
        ensures { result.now ≡ self.now.written }
    {
        self.bytes.as_slice()
    }
}

impl Sink for MemSink {
    ghost view = { mem_sink_view };

    fn write(&mut self, piece: &[u8]) -> Result<usize, EndError>
        ensures exact { IsMemWrite piece.now self.old self.new result }
        ensures within { IfOk result (λ n. n ≤ length piece.now) }
        ensures some { IfOk result (λ n. 0 < length piece.now → 0 < n) }
        ensures ok { IfOk result (λ n. Some self.new.written ≡ sending (take n piece.now) (Some self.old.written)) }
        ensures err { OnErr result (Some self.new.written ≡ Some self.old.written) }
        ensures counts { CountsSinkFaults (mem_sink_view self.old) (mem_sink_view self.new) }
        ensures failed_cause { IsErrOf result EndError.Failed → Rose self.old.faults self.new.faults }
    {
        if is_failing(&mut self.calls, &self.fails) {
            self.faults = self.faults.saturating_add(1);
            return Err(EndError::Failed);
        }
        self.bytes.append(piece)?;
        Ok(piece.len())
    }
}
