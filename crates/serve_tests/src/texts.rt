// Texts that are made of many pieces.
use std::alloc::Global;
use text_base::{Bytes, OutOfMemory};

/// So many copies of a text, after a front.
pub(crate) fn copies(
    alloc: Global,
    front: &[u8],
    text: &[u8],
    count: u32,
) -> Result<Bytes, OutOfMemory> {
    let mut all = Bytes::from_slice(alloc, front)?;
    for _ in 0..count {
        all.append(text)?;
    }
    Ok(all)
}

/// A head, and a body of `body` letters.
pub(crate) fn long_message(alloc: Global, head: &[u8], body: usize) -> Result<Bytes, OutOfMemory> {
    let letters = vec![in alloc; b'x'; body]?;
    copies(alloc, head, letters.as_slice(), 1)
}

/// `count` messages of that head and a body of `body` letters.
pub(crate) fn long_messages(
    alloc: Global,
    head: &[u8],
    body: usize,
    count: u32,
) -> Result<Bytes, OutOfMemory> {
    let message = long_message(alloc, head, body)?;
    copies(alloc, b"", message.as_slice(), count)
}

/// A field's line of a thousand bytes, whose value has this byte alone.
pub(crate) fn long_field(alloc: Global, fill: &[u8]) -> Result<Bytes, OutOfMemory> {
    let mut line = copies(alloc, b"A:", fill, 996)?;
    line.append(b"\r\n")?;
    Ok(line)
}
