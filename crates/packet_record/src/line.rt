// How one line of a schedule is read: what it says.
ghost use Rattle.std.specs.Prelude.{◌≡◌, ◌≤◌, ◌∷◌, ◌++◌, ℕ, List, Some, true, IfSome, MatchOption};
ghost use Rattle.text_base.specs.Lines.{is_one_line};
ghost use Rattle.text_base.specs.Numbers.{BeginsOtherwise};
ghost use Rattle.packet_record.specs.Said.{said_of};
ghost use Rattle.packet_record.specs.Printing.{direction_text};
ghost use Rattle.packet_record.specs.declared.packet.Direction.{Direction as DirectionValue};
ghost use Rattle.packet_record.specs.declared.line.RowFields.{RowFields as FieldsValue};

use crate::Direction;
use text_base::limits::GREATEST_MOMENT;
use text_base::split_decimal;

/// What a line says of its row, before the ranges of the numbers are checked.
#[derive(Clone, Copy)]
pub struct RowFields {
    /// When the packet enters, in milliseconds.
    pub moment: u64,
    /// Where it goes.
    pub direction: Direction,
    /// Its size in bytes.
    pub size: u64,
}

// Returns the direction between two spaces at the front of a text, and what follows.
#[inline(always)]
fn split_direction(text: &[u8]) -> Option<(Direction, &[u8])>
    ensures read { IfSome result (λ r. text.now ≡ direction_text r.0 ++ r.1.now) }
    ensures every { (d : DirectionValue) (rest : List ℕ) → text.now ≡ direction_text d ++ rest → MatchOption result ⊥
        (λ r. (r.0 ≡ d) × (r.1.now ≡ rest)) }
{
    match text {
        [b' ', b'u', b'p', b' ', rest @ ..] => Some((Direction::Up, rest)),
        [b' ', b'd', b'o', b'w', b'n', b' ', rest @ ..] => Some((Direction::Down, rest)),
        _ => None,
    }
}

// Returns what is said at the front of a text, and what follows it.
#[inline(always)]
fn split_said(text: &[u8]) -> Option<(RowFields, &[u8])>
    ensures read { IfSome result (λ r. (line : List ℕ) × (text.now ≡ line ++ r.1.now) × (said_of line ≡ Some r.0)) }
    ensures every { (line rest : List ℕ) (says : FieldsValue) → text.now ≡ line ++ rest
        → said_of line ≡ Some says → BeginsOtherwise rest
        → MatchOption result ⊥ (λ r. (r.0 ≡ says) × (r.1.now ≡ rest)) }
{
    let (moment, rest) = split_decimal(text)?;
    let (direction, rest) = split_direction(rest)?;
    let (size, rest) = split_decimal(rest)?;
    let fields = RowFields {
        moment,
        direction,
        size,
    };
    Some((fields, rest))
}

// Returns what the line at the front of a text says, and what follows its line feed. Returns `None` if the text has
// no line feed, or the line says nothing.
#[inline]
#[tactic(auto, using(crate::proofs::LineLemmas::line_in_front, crate::proofs::SaidLemmas::said_within))]
pub(crate) fn split_line(text: &[u8]) -> Option<(RowFields, &[u8])>
    ensures read { IfSome result (λ r. (line : List ℕ) × (text.now ≡ line ++ 10 ∷ r.1.now)
        × (is_one_line line ≡ true) × (said_of line ≡ Some r.0)) }
    ensures within { IfSome result (λ r. r.0.moment ≤ GREATEST_MOMENT) }
    ensures every { (line rest : List ℕ) (says : FieldsValue) → text.now ≡ line ++ 10 ∷ rest
        → said_of line ≡ Some says
        → MatchOption result ⊥ (λ r. (r.0 ≡ says) × (r.1.now ≡ rest)) }
{
    let (said, rest) = split_said(text)?;
    match rest {
        [b'\n', rest @ ..] => Some((said, rest)),
        _ => None,
    }
}

// The moment, the direction and the size.
#[tactic(auto, using(crate::proofs::SaidLemmas::said_within))]
pub(crate) fn read_line(line: &[u8]) -> Option<RowFields>
    ensures value { result ≡ said_of line.now }
    ensures within { IfSome result (λ s. s.moment ≤ GREATEST_MOMENT) }
{
    let (said, rest) = split_said(line)?;
    rest.is_empty().then_some(said)
}
