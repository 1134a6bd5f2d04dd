// Inputs, whole or in pieces. An input has at most 67,108,864 bytes.
ghost use Rattle.std.specs.Prelude.{◌≡◌, IfOk, IfErr, OnOk};
ghost use Rattle.mm_base.specs.Disk.{OnlyReads};
ghost use Rattle.mm_base.specs.Pieces.{HasSize};
ghost use Rattle.command_ends.specs.inside.Loads.{cause_of_disk, cause_of_load};
ghost use Rattle.command_ends.specs.Stops.{InputIsRead, IsInput, StopsAtFile};

use crate::{Cause, Limit, Refusal};
use mm_base::{
    Disk, DiskError, FilePlace, LoadError, load, piece_buffer, push_pieces, size_within,
};
use std::alloc::Global;
use text_base::limits::MOST_FILE_BYTES;
use text_base::{Bytes, PieceReader, Text};

// Why the file of this name isn't read.
fn cause_of_disk(name: Text, error: DiskError) -> Cause
    ensures { result ≡ cause_of_disk name error }
{
    match error {
        DiskError::Absent => Cause::Refused(Refusal::Absent(name)),
        DiskError::Failed => Cause::ReadFault(name),
        DiskError::OutOfMemory => Cause::OutOfMemory,
    }
}

// Why the file of this name isn't read whole.
fn cause_of_load(name: Text, error: LoadError) -> Cause
    ensures { result ≡ cause_of_load name error }
{
    match error {
        LoadError::Absent => Cause::Refused(Refusal::Absent(name)),
        LoadError::Failed => Cause::ReadFault(name),
        LoadError::TooLong { .. } => Cause::limit(Limit::File(name)),
        LoadError::OutOfMemory => Cause::OutOfMemory,
    }
}

/// The bytes of an input.
pub fn read_input<D: Disk>(alloc: Global, disk: &mut D, name: &str) -> Result<Bytes, Cause>
    ensures input { IfOk result (λ bytes. IsInput (D.view disk.old).files name.now bytes) }
    ensures stopped { IfErr result (λ cause. StopsAtFile name.now (D.view disk.old) (D.view disk.new) cause) }
    ensures only_reads { OnlyReads (D.view disk.old) (D.view disk.new) }
{
    match load(alloc, disk, name, MOST_FILE_BYTES) {
        Ok(bytes) => Ok(bytes),
        Err(error) => Err(cause_of_load(Text::from_text(alloc, name)?, error)),
    }
}

/// How many bytes an input has, which is then read in pieces.
pub fn input_size<D: Disk>(alloc: Global, disk: &mut D, name: &str) -> Result<u64, Cause>
    ensures size { IfOk result (λ size. HasSize (D.view disk.old).files name.now size) }
    ensures stopped { IfErr result (λ cause. StopsAtFile name.now (D.view disk.old) (D.view disk.new) cause) }
    ensures only_reads { OnlyReads (D.view disk.old) (D.view disk.new) }
{
    match size_within(disk, name) {
        Ok(size) => Ok(size),
        Err(error) => Err(cause_of_load(Text::from_text(alloc, name)?, error)),
    }
}

/// Reads an input of this size in pieces of at most 65,536 bytes. It is read to its end, also if its text is
/// refused before.
pub fn read_pieces<D: Disk, P: PieceReader>(
    alloc: Global,
    disk: &mut D,
    name: &str,
    size: u64,
    reader: &mut P,
) -> Result<(), Cause>
    requires { HasSize (D.view disk.old).files name.now size }
    ensures read { OnOk result (InputIsRead P.has_read (D.view disk.old).files name.now reader.old reader.new) }
    ensures stopped { IfErr result (λ cause. StopsAtFile name.now (D.view disk.old) (D.view disk.new) cause) }
    ensures only_reads { OnlyReads (D.view disk.old) (D.view disk.new) }
{
    let place = FilePlace { name, at: 0, size };
    let mut piece = piece_buffer(alloc, size)?;
    match push_pieces(disk, &place, piece.as_mut_slice(), reader) {
        Ok(()) => Ok(()),
        Err(error) => Err(cause_of_disk(Text::from_text(alloc, name)?, error)),
    }
}
