// Outputs: files that are written, and a text that is printed.
ghost use Rattle.std.specs.Prelude.{◌≡◌, ◌↔◌, IsOk, IfErr, OnOk};
ghost use Rattle.mm_base.specs.Disk.{DiskView, HasWriteCause};
ghost use Rattle.mm_base.specs.Sink.{CountsSinkFaults, sending};
ghost use Rattle.command_ends.specs.Stops.{StopsAtOutput, StopsPrinting};

use crate::Cause;
use mm_base::{DiskError, EndError, Sink, send_all};
use std::alloc::Global;
use text_base::Text;

/// What the disk answered for the file of this name, which was to be written.
pub fn file_written(alloc: Global, name: &str, answer: Result<(), DiskError>) -> Result<(), Cause>
    ensures done { IsOk result ↔ IsOk answer }
    ensures stopped { (old new : DiskView) → HasWriteCause old new answer
        → IfErr result (λ cause. StopsAtOutput name.now old new cause) }
{
    match answer {
        Ok(()) => Ok(()),
        Err(DiskError::OutOfMemory) => Err(Cause::OutOfMemory),
        Err(_) => Err(Cause::WriteFault(Text::from_text(alloc, name)?)),
    }
}

/// Prints this text.
pub fn print<O: Sink>(out: &mut O, text: &[u8]) -> Result<(), Cause>
    ensures ok { OnOk result ((O.view out.new).written ≡ sending text.now (O.view out.old).written) }
    ensures stopped { IfErr result (λ cause. StopsPrinting text.now (O.view out.old) (O.view out.new) cause) }
    ensures counts { CountsSinkFaults (O.view out.old) (O.view out.new) }
{
    match send_all(out, text) {
        Ok(()) => Ok(()),
        Err(EndError::Failed) => Err(Cause::OutFault),
        Err(EndError::OutOfMemory) => Err(Cause::OutOfMemory),
    }
}
