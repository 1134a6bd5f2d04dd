// The line at the front of a text, read in one pass.
ghost use Rattle.std.specs.Prelude.{◌≡◌, ◌∷◌, ◌++◌, decimal, IfSome};
ghost use Rattle.text_base.specs.Numbers.{leads_with_zero};
ghost use Rattle.shell_log.specs.Entries.{IsEntry, IsShort};
ghost use Rattle.shell_log.specs.LogText.{line_of};

use crate::Entry;
use text_base::split_decimal;

// Returns the entry of the line at the front of a text, and what follows its line feed. It may return `None` for any
// text.
#[inline]
pub(crate) fn split_entry(text: &[u8]) -> Option<(Entry, &[u8])>
    ensures { IfSome result (λ r. (text.now ≡ line_of r.0 ++ 10 ∷ r.1.now) × IsEntry r.0) }
{
    let (moment, rest) = split_number(text)?;
    match rest {
        [b' ', b'+', b' ', rest @ ..] => split_arrival(moment, rest),
        [b' ', b'#', b' ', rest @ ..] => split_opportunity(moment, rest),
        [b' ', b'-', b' ', rest @ ..] => split_departure(moment, rest),
        [b' ', b'd', b' ', rest @ ..] => split_drop(moment, rest),
        _ => None,
    }
}

// The number at the front of a text, without a leading zero, and what follows it.
#[inline]
fn split_number(text: &[u8]) -> Option<(u64, &[u8])>
    ensures { IfSome result (λ r. (text.now ≡ decimal r.0 ++ r.1.now) × IsShort r.0) }
{
    let (value, rest) = split_decimal(text)?;
    if leads_with_zero(&text[..text.len() - rest.len()]) {
        return None;
    }
    Some((value, rest))
}

// Whether more than one byte is there, and the first is a zero.
#[inline]
fn leads_with_zero(text: &[u8]) -> bool
    ensures { result ≡ leads_with_zero text.now }
{
    match text {
        [b'0', _, ..] => true,
        _ => false,
    }
}

// The number before the line feed at the front of a text, and what follows that.
#[inline]
fn split_last(text: &[u8]) -> Option<(u64, &[u8])>
    ensures { IfSome result (λ r. (text.now ≡ decimal r.0 ++ 10 ∷ r.1.now) × IsShort r.0) }
{
    let (value, rest) = split_number(text)?;
    match rest {
        [b'\n', rest @ ..] => Some((value, rest)),
        _ => None,
    }
}

// Two numbers with a space between them, and a line feed, at the front of a text, and what follows.
#[inline]
fn split_pair(text: &[u8]) -> Option<((u64, u64), &[u8])>
    ensures pair { IfSome result (λ r. text.now ≡ decimal r.0.0 ++ 32 ∷ (decimal r.0.1 ++ 10 ∷ r.1.now)) }
    ensures short { IfSome result (λ r. IsShort r.0.0 × IsShort r.0.1) }
{
    let (first, rest) = split_number(text)?;
    let [b' ', rest @ ..] = rest else {
        return None;
    };
    let (second, rest) = split_last(rest)?;
    Some(((first, second), rest))
}

#[inline]
#[tactic(auto, using(crate::proofs::WholeLineLemmas::arrival_in_front))]
fn split_arrival(moment: u64, text: &[u8]) -> Option<(Entry, &[u8])>
    requires { IsShort moment }
    ensures { IfSome result (λ r. (decimal moment ++ 32 ∷ 43 ∷ 32 ∷ text.now ≡ line_of r.0 ++ 10 ∷ r.1.now)
        × IsEntry r.0) }
{
    let (size, rest) = split_last(text)?;
    if size < 1 || size > 1504 {
        return None;
    }
    let size = size as u16;
    Some((Entry::Arrival { moment, size }, rest))
}

#[inline]
#[tactic(auto, using(crate::proofs::WholeLineLemmas::opportunity_in_front))]
fn split_opportunity(moment: u64, text: &[u8]) -> Option<(Entry, &[u8])>
    requires { IsShort moment }
    ensures { IfSome result (λ r. (decimal moment ++ 32 ∷ 35 ∷ 32 ∷ text.now ≡ line_of r.0 ++ 10 ∷ r.1.now)
        × IsEntry r.0) }
{
    let (bytes, rest) = split_last(text)?;
    if bytes < 1 || bytes > 1_000_000 {
        return None;
    }
    let bytes = bytes as u32;
    Some((Entry::Opportunity { moment, bytes }, rest))
}

#[inline]
#[tactic(auto, using(crate::proofs::WholeLineLemmas::departure_in_front))]
fn split_departure(moment: u64, text: &[u8]) -> Option<(Entry, &[u8])>
    requires { IsShort moment }
    ensures { IfSome result (λ r. (decimal moment ++ 32 ∷ 45 ∷ 32 ∷ text.now ≡ line_of r.0 ++ 10 ∷ r.1.now)
        × IsEntry r.0) }
{
    let ((size, delay), rest) = split_pair(text)?;
    if size < 1 || size > 1504 || delay > moment {
        return None;
    }
    let size = size as u16;
    Some((
        Entry::Departure {
            moment,
            size,
            delay,
        },
        rest,
    ))
}

#[inline]
#[tactic(auto, using(crate::proofs::WholeLineLemmas::drop_in_front))]
fn split_drop(moment: u64, text: &[u8]) -> Option<(Entry, &[u8])>
    requires { IsShort moment }
    ensures { IfSome result (λ r. (decimal moment ++ 32 ∷ 100 ∷ 32 ∷ text.now ≡ line_of r.0 ++ 10 ∷ r.1.now)
        × IsEntry r.0) }
{
    let ((packets, bytes), rest) = split_pair(text)?;
    if packets < 1 || bytes < 1 {
        return None;
    }
    Some((
        Entry::Drop {
            moment,
            packets,
            bytes,
        },
        rest,
    ))
}
