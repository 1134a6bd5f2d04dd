// Reading a pipe to its end.
ghost use Rattle.std.specs.Prelude.{◌≡◌, take, IfOk, IfSome};

use crate::kept::Pipes;
use mm_base::call_again;
use std::alloc::Global;
use std::fs::{self, File, Metadata};
use std::io::{self, ErrorKind, Read};
use std::os::unix::fs::FileTypeExt;
use std::rt::Files;
use text_base::Bytes;
use text_base::limits::MOST_FILE_BYTES;

/// Reads to the end, or `most` bytes if there are more.
pub(crate) fn read_front<R: Read + Drop>(alloc: Global, reader: R, most: u64) -> io::Result<Bytes>
    ensures front { IfOk result
        (λ bytes. IfSome (R.remaining reader) (λ left. bytes ≡ take most left)) }
{
    let mut bytes = Vec::new(alloc);
    let mut front = reader.take(most);
    front.read_to_end(&mut bytes)?;
    Ok(Bytes::from_vec(bytes))
}

// Opens the pipe of this name, and reads it. It has a byte more than a file may have if it sends more than that.
fn read_opened<R: Files<File = File>>(
    alloc: Global,
    rt: &R,
    name: &str,
) -> io::Result<(Metadata, Bytes)> {
    let file = call_again(|| fs::open(rt, name))?;
    let metadata = call_again(|| file.metadata())?;
    if !metadata.file_type().is_fifo() {
        return Err(io::Error::from(ErrorKind::Unsupported));
    }
    let bytes = read_front(alloc, file, MOST_FILE_BYTES + 1)?;
    Ok((metadata, bytes))
}

/// Returns the place of the pipe of this name among those that were read; it is read if it isn't there. Returns an error
/// of the kind `Unsupported` if the name doesn't lead to a pipe.
pub(crate) fn place_of<R: Files<File = File>>(
    alloc: Global,
    rt: &R,
    name: &str,
    pipes: &mut Pipes,
) -> io::Result<usize> {
    let metadata = call_again(|| fs::metadata(rt, name))?;
    if !metadata.file_type().is_fifo() {
        return Err(io::Error::from(ErrorKind::Unsupported));
    }
    if let Some(place) = pipes.place(&metadata) {
        return Ok(place);
    }
    let (metadata, bytes) = read_opened(alloc, rt, name)?;
    if pipes.keep(name, &metadata, bytes).is_err() {
        return Err(io::Error::from(ErrorKind::OutOfMemory));
    }
    match pipes.place(&metadata) {
        Some(place) => Ok(place),
        None => Err(io::Error::from(ErrorKind::Other)),
    }
}
