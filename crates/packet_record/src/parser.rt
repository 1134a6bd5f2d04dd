// A schedule read from its text piece by piece.
ghost use Rattle.std.specs.Prelude.{◌≡◌, ◌≢◌, ◌≤◌, ◌<◌, ◌∷◌, ◌++◌, ◌+◌, ◌-◌, ◌/◌, ℕ, List, [], length, take, None};
ghost use Rattle.std.specs.Prelude.{Some, true, IfSome, IfNone, IfOk, IfErr, MatchResult, is_some};
ghost use mathlib.Core.List.{IsPrefix};
ghost use Rattle.text_base.specs.Lines.{lines_of, is_one_line};
ghost use Rattle.packet_record.specs.Orders.{IsSchedule};
ghost use Rattle.packet_record.specs.Schedules.{IsOfLineAfter, IsScheduleText, first_fault};
ghost use Rattle.packet_record.specs.declared.packet.Row.{Row as RowValue};

use crate::gathering::ScheduleRows;
use crate::line::{read_line, split_line};
use crate::{PackedRow, PackedSchedule, ScheduleError};
use std::alloc::Global;
use std::marker::Model;
use text_base::limits::MOST_LINES;
use text_base::{Bytes, OutOfMemory, PieceReader, cut_line};

// A byte more than the longest line that says something: two decimals of ten digits, and a direction between two
// spaces.
const MOST_KEPT: usize = 27;

/// A schedule that is read from its text piece by piece, wherever the text is cut. Of the text no more is kept than the
/// first 27 bytes of a line that a piece has begun.
#[derive(Drop)]
pub struct ScheduleParser {
    rows: ScheduleRows,
    kept: Bytes,
}

impl Model for ScheduleParser {
    ghost use Rattle.packet_record.specs.PartsRead.{PartRead};

    ghost Value = { PartRead };

    ghost use Rattle.packet_record.specs.views.Parsers.{parser_view};
    ghost use Rattle.packet_record.specs.inside.Parsers.{KeepsOneLine};

    ghost view = { parser_view };

    ghost invariant = { KeepsOneLine };
}

impl ScheduleParser {
    ghost use Rattle.packet_record.specs.PartsRead.{HasRead, HasReadAll, IsLeft};

    /// Begins to read, with room for the rows of a text of `bytes` bytes, or runs out of memory.
    pub fn new(alloc: Global, bytes: usize) -> Result<Self, OutOfMemory>
        ensures read { IfOk result (λ text. HasRead [] text) }
        ensures none { IfOk result (λ text. text.gathered.rows ≡ []) }
    {
        Ok(ScheduleParser {
            rows: ScheduleRows::with_room(alloc, most_rows(bytes))?,
            kept: Bytes::new(alloc),
        })
    }

    /// The rows of the lines so far. They stay as more is read, and more may follow. After a refusal they are as many
    /// as the lines before the refused one.
    pub fn rows(&self) -> &[PackedRow]
        ensures rows { result.now ≡ self.now.gathered.rows }
        ensures schedule { IsSchedule self.now.gathered.rows }
        ensures refused { IfSome self.now.gathered.refused (IsOfLineAfter (length self.now.gathered.rows)) }
    {
        self.rows.rows()
    }

    /// Whether a line was refused, or memory ran out.
    pub fn is_refused(&self) -> bool
        ensures { result ≡ is_some self.now.gathered.refused }
    {
        self.rows.is_refused()
    }

    // Keeps a part of a line.
    fn keep(&mut self, part: &[u8])
        requires { is_one_line part.now ≡ true }
        ensures left { (whole rest : List ℕ) → IsLeft whole (part.now ++ rest) self.old → IsLeft whole rest self.new }
        ensures grows { IsPrefix self.old.gathered.rows self.new.gathered.rows }
    {
        if self.rows.is_refused() {
            return;
        }
        let front = kept_front(self.kept.len(), part);
        if self.kept.append(front).is_err() {
            self.rows.want_memory();
        }
    }

    // Reads the last part of a line, which a line feed follows.
    fn end_line(&mut self, part: &[u8])
        requires { is_one_line part.now ≡ true }
        ensures left { (whole rest : List ℕ) → IsLeft whole (part.now ++ 10 ∷ rest) self.old
            → IsLeft whole rest self.new }
        ensures grows { IsPrefix self.old.gathered.rows self.new.gathered.rows }
    {
        if self.kept.is_empty() {
            self.rows.take(read_line(part));
            return;
        }
        self.keep(part);
        self.rows.take(read_line(self.kept.as_slice()));
        self.kept.clear();
    }

    // Reads a text up to its first line feed, and returns what follows. Returns `None` if it has no line feed:
    // nothing is read then.
    #[inline]
    fn next_line<'a>(&mut self, text: &'a [u8]) -> Option<&'a [u8]>
        ensures some { IfSome result (λ after. (whole rest : List ℕ) → IsLeft whole (text.now ++ rest) self.old
            → IsLeft whole (after.now ++ rest) self.new) }
        ensures shorter { IfSome result (λ after. length after.now < length text.now) }
        ensures none { IfNone result ((self.new ≡ self.old) × (is_one_line text.now ≡ true)) }
        ensures grows { IsPrefix self.old.gathered.rows self.new.gathered.rows }
    {
        if self.kept.is_empty() {
            if let Some((says, after)) = split_line(text) {
                self.rows.take(Some(says));
                return Some(after);
            }
        }
        let (line, after) = cut_line(text)?;
        self.end_line(line);
        Some(after)
    }

    /// The text ends here: its last line may have no line feed.
    pub fn end(&mut self)
        ensures all { (text : List ℕ) → HasRead text self.old → HasReadAll text self.new }
        ensures grows { IsPrefix self.old.gathered.rows self.new.gathered.rows }
    {
        if self.kept.is_empty() {
            return;
        }
        self.rows.take(read_line(self.kept.as_slice()));
        self.kept.clear();
    }

    /// The schedule of the text that was read to its end, or its first refusal.
    pub fn into_schedule(self) -> Result<PackedSchedule, ScheduleError>
        ensures found { (text : List ℕ) → HasReadAll text self → IfOk result (λ rows. IsScheduleText text rows) }
        ensures exact { (text : List ℕ) → HasReadAll text self → MatchResult result
            (λ _. first_fault 1 0 (lines_of text) ≡ None)
            (λ e. (e ≢ ScheduleError.OutOfMemory) → first_fault 1 0 (lines_of text) ≡ Some e) }
        ensures rows { IfOk result (λ rows. (rows ≡ self.gathered.rows) × (self.gathered.refused ≡ None)) }
        ensures refused { IfErr result (λ e. self.gathered.refused ≡ Some e) }
    {
        self.rows.finish()
    }

    /// The schedule of the text that was read, or its first refusal, as `read_schedule` returns them for the text.
    pub fn finish(mut self) -> Result<PackedSchedule, ScheduleError>
        ensures found { (text : List ℕ) → HasRead text self → IfOk result (λ rows. IsScheduleText text rows) }
        ensures exact { (text : List ℕ) → HasRead text self → MatchResult result
            (λ _. first_fault 1 0 (lines_of text) ≡ None)
            (λ e. (e ≢ ScheduleError.OutOfMemory) → first_fault 1 0 (lines_of text) ≡ Some e) }
    {
        self.end();
        self.into_schedule()
    }
}

impl PieceReader for ScheduleParser {
    ghost use Rattle.packet_record.specs.PartsRead.{HasRead, IsRefused};

    ghost has_read = { HasRead };

    /// Reads the next piece of the text. After a refusal it is passed over: nothing changes, and no memory is taken.
    fn push(&mut self, piece: &[u8])
        ensures read { (text : List ℕ) → HasRead text self.old → HasRead (text ++ piece.now) self.new }
        ensures grows { IsPrefix self.old.gathered.rows self.new.gathered.rows }
        ensures settled { IsRefused self.old → self.new ≡ self.old }
    {
        if self.rows.is_refused() {
            return;
        }
        let mut rest = piece;
        'lines: while let Some(after) = self.next_line(rest) {
            rest = after;
        }
        self.keep(rest);
    }
}

// What is kept of a part of a line, of which `kept` bytes were kept before. A line that has more than 26 bytes says
// nothing, however it goes on.
fn kept_front(kept: usize, part: &[u8]) -> &[u8]
    ensures { result.now ≡ take (MOST_KEPT - kept) part.now }
{
    &part[..part.len().min(MOST_KEPT.saturating_sub(kept))]
}

// How many rows the schedule of a text of `bytes` bytes has at most: a line has no fewer than six bytes and its line
// feed.
#[tactic(auto, using(crate::proofs::RoomLemmas::rows_fit))]
fn most_rows(bytes: usize) -> usize
    ensures enough { (text : List ℕ) (rows : List RowValue) → length text ≤ bytes → IsScheduleText text rows
        → length rows ≤ result }
    ensures most { result ≤ bytes / 7 + 1 }
    ensures few { result ≤ MOST_LINES }
{
    (bytes / 7 + 1).min(MOST_LINES as usize)
}
