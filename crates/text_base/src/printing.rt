// Texts of lines, made whole.
ghost use Rattle.std.specs.Prelude.{◌≡◌, ◌+◌, ◌≤◌, ◌<◌, ◌++◌, ℕ, List, length, true, IfOk};
ghost use Rattle.std.specs.List.{flat_map};
ghost use Rattle.text_base.specs.Lines.{is_ended};

use crate::limits::{BUFFER_BYTES, LINE_BYTES};
use crate::{Bytes, LineBuffer, OutOfMemory};
use std::alloc::Global;

/// How many lines are made at once.
pub const LINES_AT_ONCE: usize = 2048;

/// What is printed as one line of at most `LINE_BYTES` bytes.
pub trait PrintLine {
    /// The line, with its line feed.
    ghost line: { Self → List ℕ };

    /// Puts the line, with its line feed, in front of what a buffer holds.
    fn put_line(&self, out: &mut LineBuffer)
        requires { length out.old + LINE_BYTES ≤ BUFFER_BYTES }
        ensures line { out.new ≡ line self.now ++ out.old }
        ensures some { 0 < length (line self.now) }
        ensures short { length (line self.now) ≤ LINE_BYTES }
        ensures ended { is_ended (line self.now) ≡ true };
}

/// Makes the buffer hold a line for each item, of which there are at most 2048.
pub fn put_lines<T: PrintLine>(lines: &mut LineBuffer, items: &[T])
    requires { length items.now ≤ LINES_AT_ONCE }
    ensures { lines.new ≡ flat_map T.line items.now }
{
    lines.clear();
    let mut left = items.len();
    'lines: while left > 0 {
        left -= 1;
        items[left].put_line(lines);
    }
}

/// The first items, as many as are made at once, and the others.
pub fn split_lines<T>(items: &[T]) -> (&[T], &[T])
    ensures all { items.now ≡ result.0.now ++ result.1.now }
    ensures few { length result.0.now ≤ LINES_AT_ONCE }
    ensures some { 0 < length items.now → 0 < length result.0.now }
{
    items.split_at(items.len().min(LINES_AT_ONCE))
}

/// The text of a first line and of a line for each item.
pub fn print_lines<T: PrintLine>(
    alloc: Global,
    first: &[u8],
    items: &[T],
) -> Result<Bytes, OutOfMemory>
    ensures { IfOk result (λ text. text ≡ first.now ++ flat_map T.line items.now) }
{
    let mut text = Bytes::from_slice(alloc, first)?;
    let mut lines = LineBuffer::new(alloc)?;
    let mut left = items;
    'pieces: while !left.is_empty() {
        let (piece, others) = split_lines(left);
        put_lines(&mut lines, piece);
        text.append(lines.as_slice())?;
        left = others;
    }
    Ok(text)
}
