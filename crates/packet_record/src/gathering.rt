// The rows of a schedule, gathered line by line.
ghost use Rattle.std.specs.Prelude.{◌≡◌, ◌≢◌, ◌≤◌, ◌∷◌, ℕ, List, [], None, Some, IfSome, is_some, IfOk, IfErr, OnOk};
ghost use Rattle.std.specs.Prelude.{MatchResult, length};
ghost use mathlib.Core.List.{IsPrefix};
ghost use Rattle.packet_record.specs.Orders.{IsSchedule};
ghost use Rattle.packet_record.specs.Said.{said_of};
ghost use Rattle.packet_record.specs.Schedules.{AreRows, IsOfLineAfter, first_fault};

use crate::line::RowFields;
use crate::reading::row_of;
use crate::{PackedRow, PackedSchedule, ScheduleError};
use std::alloc::Global;
use std::marker::Model;
use text_base::OutOfMemory;
use text_base::limits::{GREATEST_MOMENT, MOST_LINES};

// The rows of the lines so far, the moment of the last (0 at first), and the first refusal; out of memory is one too.
#[derive(Drop)]
pub(crate) struct ScheduleRows {
    rows: Vec<PackedRow>,
    low: u64,
    refused: Option<ScheduleError>,
}

impl Model for ScheduleRows {
    ghost use Rattle.packet_record.specs.Gathered.{Gathered};

    ghost Value = { Gathered };

    ghost use Rattle.packet_record.specs.views.Gatherers.{rows_view};
    ghost use Rattle.packet_record.specs.inside.Gatherers.{CanGather};

    ghost view = { rows_view };

    ghost invariant = { CanGather };
}

impl ScheduleRows {
    ghost use Rattle.packet_record.specs.Gathered.{Awaits};
    ghost use Rattle.packet_record.specs.inside.Gathered.{none_gathered, refusing};

    // The rows of the lines so far.
    pub(crate) fn rows(&self) -> &[PackedRow]
        ensures rows { result.now ≡ self.now.rows }
        ensures schedule { IsSchedule self.now.rows }
        ensures refused { IfSome self.now.refused (IsOfLineAfter (length self.now.rows)) }
    {
        self.rows.as_slice()
    }

    // No rows, with room for `most` rows, or out of memory.
    pub(crate) fn with_room(alloc: Global, most: usize) -> Result<Self, OutOfMemory>
        requires { most ≤ MOST_LINES }
        ensures { IfOk result (λ r. r ≡ none_gathered) }
    {
        Ok(ScheduleRows {
            rows: Vec::with_capacity(alloc, most)?,
            low: 0,
            refused: None,
        })
    }

    // Adds the row of what a line says.
    #[inline]
    fn add(&mut self, says: Option<RowFields>) -> Result<(), ScheduleError>
        requires going { self.old.refused ≡ None }
        requires within { IfSome says (λ s. s.moment ≤ GREATEST_MOMENT) }
        ensures ok { OnOk result ((all rest : List (List ℕ)) (line : List ℕ) → said_of line ≡ says
            → Awaits all (line ∷ rest) self.old → Awaits all rest self.new) }
        ensures err { IfErr result (λ e. (all rest : List (List ℕ)) (line : List ℕ) → said_of line ≡ says
            → Awaits all (line ∷ rest) self.old
            → Awaits all rest (refusing e self.new)) }
        ensures named { IfErr result (IsOfLineAfter (length self.new.rows)) }
        ensures grows { IsPrefix self.old.rows self.new.rows }
    {
        let row = row_of(self.rows.len() as u32, self.low, says)?;
        self.rows.push(PackedRow::new(row))?;
        self.low = row.timed.moment;
        Ok(())
    }

    // Takes what the next line says, or `None` if it says nothing. After a refusal the line is passed over.
    #[inline]
    pub(crate) fn take(&mut self, says: Option<RowFields>)
        requires within { IfSome says (λ s. s.moment ≤ GREATEST_MOMENT) }
        ensures left { (all rest : List (List ℕ)) (line : List ℕ) → said_of line ≡ says
            → Awaits all (line ∷ rest) self.old → Awaits all rest self.new }
        ensures grows { IsPrefix self.old.rows self.new.rows }
    {
        if self.is_refused() {
            return;
        }
        if let Err(fault) = self.add(says) {
            self.refused = Some(fault);
        }
    }

    // Whether a line was refused, or memory ran out.
    pub(crate) fn is_refused(&self) -> bool
        ensures { result ≡ is_some self.now.refused }
    {
        self.refused.is_some()
    }

    // Takes note that memory ran out.
    pub(crate) fn want_memory(&mut self)
        ensures { self.new ≡ refusing ScheduleError.OutOfMemory self.old }
    {
        self.refused = Some(ScheduleError::OutOfMemory);
    }

    // The schedule, or the first refusal.
    pub(crate) fn finish(self) -> Result<PackedSchedule, ScheduleError>
        ensures found { (all : List (List ℕ)) → Awaits all [] self → IfOk result (λ rows. AreRows 1 0 all rows) }
        ensures exact { (all : List (List ℕ)) → Awaits all [] self → MatchResult result
            (λ _. first_fault 1 0 all ≡ None)
            (λ e. (e ≢ ScheduleError.OutOfMemory) → first_fault 1 0 all ≡ Some e) }
        ensures rows { IfOk result (λ rows. (rows ≡ self.rows) × (self.refused ≡ None)) }
        ensures refused { IfErr result (λ e. self.refused ≡ Some e) }
    {
        match self.refused {
            Some(fault) => Err(fault),
            None => Ok(PackedSchedule::from_rows(self.rows)),
        }
    }
}
