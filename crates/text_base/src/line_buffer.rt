// Lines written from their end to their front.
ghost use Rattle.std.specs.Prelude.{◌≡◌, ◌+◌, ◌^◌, ◌≤◌, ◌<◌, ◌∷◌, ◌++◌, ℕ, List, [], length, drop, decimal, IfOk};

use crate::OutOfMemory;
use crate::kept_digits::{KeptDigits, LEAST_LONGER};
use crate::limits::BUFFER_BYTES;
use itoa::write_digits;
use std::alloc::Global;
use std::marker::Model;

/// Up to `BUFFER_BYTES` bytes that are written from their end, the last line first, which contracts see as the list of
/// the bytes. It has room for 2048 of the longest lines, and takes no memory after it was made.
#[derive(Drop)]
pub struct LineBuffer {
    bytes: Vec<u8>,
    start: usize,
    moment: KeptDigits,
}

impl Model for LineBuffer {
    ghost use Rattle.std.specs.Prelude.{◌≡◌, ◌≤◌, ℕ, List, length, drop};
    ghost use Rattle.text_base.specs.declared.limits.TheConstants.{BUFFER_BYTES};

    ghost Value = { List ℕ };

    ghost view = { λ lines. drop lines.start lines.bytes.items };

    ghost invariant = { λ lines. (length lines.bytes.items ≡ BUFFER_BYTES) × (lines.start ≤ BUFFER_BYTES) };
}

impl LineBuffer {
    /// A buffer without bytes.
    pub fn new(alloc: Global) -> Result<Self, OutOfMemory>
        ensures { IfOk result (λ lines. lines ≡ []) }
    {
        Ok(LineBuffer {
            bytes: vec![in alloc; 0u8; BUFFER_BYTES]?,
            start: BUFFER_BYTES,
            moment: KeptDigits::new(0),
        })
    }

    /// Lets go of all bytes.
    pub fn clear(&mut self)
        ensures { self.new ≡ [] }
    {
        self.start = BUFFER_BYTES;
    }

    /// Puts a byte in front.
    pub fn put_byte(&mut self, byte: u8)
        requires { length self.old < BUFFER_BYTES }
        ensures bytes { self.new ≡ byte ∷ self.old }
        ensures length { length self.new ≡ length self.old + 1 }
    {
        self.start -= 1;
        self.bytes[self.start] = byte;
    }

    /// Puts the bytes of `piece` in front.
    #[inline(always)]
    pub fn put(&mut self, piece: &[u8])
        requires { length piece.now + length self.old ≤ BUFFER_BYTES }
        ensures bytes { self.new ≡ piece.now ++ self.old }
        ensures length { length self.new ≡ length self.old + length piece.now }
    {
        let start = self.start - piece.len();
        self.bytes[start..self.start].copy_from_slice(piece);
        self.start = start;
    }

    /// Puts a number in front, in digits, without a leading zero.
    pub fn put_decimal(&mut self, n: u64)
        requires { length self.old + 20 ≤ BUFFER_BYTES }
        ensures bytes { self.new ≡ decimal n ++ self.old }
        ensures length { length self.new ≤ length self.old + 20 }
        ensures short { n < 10 ^ 10 → length self.new ≤ length self.old + 10 }
    {
        self.start = write_digits(n, self.bytes.as_mut_slice(), self.start);
    }

    /// Puts a moment in front, in digits, like `put_decimal`. Lines that follow each other often have one moment, so
    /// its digits are kept for the next call.
    #[inline]
    pub fn put_moment(&mut self, moment: u64)
        requires { length self.old + 20 ≤ BUFFER_BYTES }
        ensures bytes { self.new ≡ decimal moment ++ self.old }
        ensures length { length self.new ≤ length self.old + 20 }
        ensures short { moment < 10 ^ 10 → length self.new ≤ length self.old + 10 }
    {
        if moment >= LEAST_LONGER {
            return self.put_decimal(moment);
        }
        let kept = self.moment.renewed(moment);
        self.moment = kept;
        self.put_kept(kept);
    }

    // Puts a number in front whose digits are kept: all their bytes, and then lets go of those before the digits.
    #[inline(always)]
    fn put_kept(&mut self, kept: KeptDigits)
        requires { length self.old + 20 ≤ BUFFER_BYTES }
        ensures bytes { self.new ≡ decimal kept.number ++ self.old }
        ensures length { length self.new ≤ length self.old + 8 }
    {
        self.put(&kept.bytes);
        self.pass(kept.start);
    }

    // Lets go of the first `count` bytes.
    #[inline(always)]
    fn pass(&mut self, count: usize)
        requires { count ≤ length self.old }
        ensures bytes { self.new ≡ drop count self.old }
        ensures length { length self.new + count ≡ length self.old }
    {
        self.start += count;
    }

    /// The bytes, in the order in which they are read.
    pub fn as_slice(&self) -> &[u8]
        ensures { result.now ≡ self.now }
    {
        &self.bytes[self.start..]
    }
}
