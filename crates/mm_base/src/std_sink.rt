// A writer of the outside, as the standard output. It tells no content.
ghost use Rattle.std.specs.Prelude.{◌≡◌, ◌≤◌, ◌<◌, length, take, IfOk, OnErr, IsErrOf};
ghost use Rattle.std.specs.Io.KnownBytes.{Appends, Keeps};
ghost use Rattle.mm_base.specs.Counts.{Rose};
ghost use Rattle.mm_base.specs.Sink.{sending, writer_view, CountsSinkFaults};

use crate::{EndError, Sink, write_once};
use std::io::{ErrorKind, Write};

/// The standard output, or another writer of std. It tells no content, and adds to what its writer holds, where that is
/// known, exactly what it returns. Each error of its writer other than out of memory is counted as a fault, and so is a
/// write that takes nothing of a piece. A call that a signal interrupted is made again.
#[derive(Drop)]
pub struct StdSink<W: Write + Drop> {
    writer: W,
    faults: u64,
}

impl<W: Write + Drop> StdSink<W> {
    /// A sink over this writer, without a fault so far.
    pub fn new(writer: W) -> Self
        ensures { result.faults ≡ 0 }
    {
        StdSink { writer, faults: 0 }
    }
}

impl<W: Write + Drop> Sink for StdSink<W> {
    ghost view = { λ s. writer_view s.faults };

    fn write(&mut self, piece: &[u8]) -> Result<usize, EndError>
        ensures within { IfOk result (λ n. n ≤ length piece.now) }
        ensures some { IfOk result (λ n. 0 < length piece.now → 0 < n) }
        ensures known { IfOk result
            (λ n. Appends (W.contents self.old.writer) (W.contents self.new.writer) (take n piece.now)) }
        ensures kept { OnErr result (Keeps (W.contents self.old.writer) (W.contents self.new.writer)) }
        ensures ok { IfOk result (λ n. (writer_view self.new.faults).written
            ≡ sending (take n piece.now) (writer_view self.old.faults).written) }
        ensures err { OnErr result ((writer_view self.new.faults).written ≡ (writer_view self.old.faults).written) }
        ensures counts { CountsSinkFaults (writer_view self.old.faults) (writer_view self.new.faults) }
        ensures failed_cause { IsErrOf result EndError.Failed → Rose self.old.faults self.new.faults }
    {
        match write_once(&mut self.writer, piece) {
            Ok(count) => Ok(count),
            Err(error) if error.kind() == ErrorKind::OutOfMemory => Err(EndError::OutOfMemory),
            Err(_) => {
                self.faults = self.faults.saturating_add(1);
                Err(EndError::Failed)
            }
        }
    }
}
