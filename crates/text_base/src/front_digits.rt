// The digits at the front of a text, eight bytes at once.
ghost use Rattle.std.specs.Prelude.{◌≡◌, ◌+◌, ◌-◌, ◌*◌, ◌++◌, ◌≤◌, ◌<◌, length, take, true, false, not, fold};
ghost use Rattle.std.specs.Prelude.{map, replicate, slice_index, All};
ghost use Rattle.std.specs.Int.{w64, to_le_bytes};
ghost use Rattle.std.specs.List.{list_all};
ghost use Rattle.std.specs.Simd.Lanes.{mask_l};
ghost use Rattle.text_base.specs.Numbers.{is_digit, value_of_digits};

use std::simd::prelude::*;

/// How many bytes are looked at together.
pub const AT_ONCE: usize = 8;

// The digit 0 in each byte of a word.
const ZEROS: u64 = 0x3030_3030_3030_3030;

// The bytes of a word in which pairs of digits stand, and those for four digits.
const PAIRS: u64 = 0x00ff_00ff_00ff_00ff;

const FOURS: u64 = 0x0000_ffff_0000_ffff;

// A bit for each byte that is no digit, the lowest for the first byte.
#[inline(always)]
fn mark_others(bytes: u8x8) -> u64
    ensures { result ≡ mask_l (map (λ byte. not (is_digit byte)) bytes) }
{
    (bytes - u8x8::splat(b'0'))
        .simd_ge(u8x8::splat(10))
        .to_bitmask()
}

/// How many of the first eight bytes stand before one that is no digit: eight where all are digits.
#[inline(always)]
pub fn count_digits(text: &[u8]) -> usize
    requires { 8 ≤ length text.now }
    ensures few { result ≤ 8 }
    ensures digits { list_all is_digit (take result text.now) ≡ true }
    ensures stops { result < 8 → is_digit (slice_index text.now result) ≡ false }
{
    let others = mark_others(u8x8::from_slice(text));
    if others == 0 {
        AT_ONCE
    } else {
        others.trailing_zeros() as usize
    }
}

// The number of the eight digits that are the bytes of a word, the first in the lowest byte. Neighbours are joined:
// digits to pairs, pairs to fours, and those to the number.
#[inline(always)]
fn join_digits(digits: u64) -> u64
    requires { All (λ digit. digit < 10) (to_le_bytes w64 digits) }
    ensures { result ≡ fold (λ value digit. value * 10 + digit) 0 (to_le_bytes w64 digits) }
{
    let pairs = (digits * 10 + (digits >> 8)) & PAIRS;
    let fours = (pairs * 100 + (pairs >> 16)) & FOURS;
    (fours * 10_000 + (fours >> 32)) & 0xffff_ffff
}

// The first `count` bytes, all of which are digits, as eight digits in a word, by zeros before them.
#[inline(always)]
fn align_digits(text: &[u8], count: usize) -> u64
    requires long { 8 ≤ length text.now }
    requires some { 0 < count }
    requires few { count < 8 }
    requires digits { list_all is_digit (take count text.now) ≡ true }
    ensures { to_le_bytes w64 result ≡ replicate (8 - count) 0 ++ map (λ byte. byte - 48) (take count text.now) }
{
    let word = u64::from_le_bytes([
        text[0], text[1], text[2], text[3], text[4], text[5], text[6], text[7],
    ]);
    word.wrapping_sub(ZEROS) << (8 * (AT_ONCE - count))
}

/// The number that the first `count` bytes stand for, all of which are digits.
#[inline(always)]
pub fn value_of_front(text: &[u8], count: usize) -> u64
    requires long { 8 ≤ length text.now }
    requires some { 0 < count }
    requires few { count < 8 }
    requires digits { list_all is_digit (take count text.now) ≡ true }
    ensures { result ≡ value_of_digits (take count text.now) }
{
    join_digits(align_digits(text, count))
}
