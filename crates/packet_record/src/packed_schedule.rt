// A schedule whose rows take 12 bytes each.
ghost use Rattle.std.specs.Prelude.{◌≡◌, List, IfOk};
ghost use Rattle.packet_record.specs.Orders.{IsSchedule, AreNumbered, NeverFall};
ghost use Rattle.packet_record.specs.declared.packet.Row.{Row as RowValue};

use crate::{PackedRow, Schedule};
use std::alloc::Global;
use std::marker::Model;
use text_base::OutOfMemory;

/// A `Schedule` whose rows take half of the memory. Contracts see it as the list of its rows.
#[derive(Drop)]
pub struct PackedSchedule {
    rows: Vec<PackedRow>,
}

impl Model for PackedSchedule {
    ghost Value = { List RowValue };

    ghost view = { λ s. s.rows.items };

    ghost invariant = { λ s. IsSchedule s.rows.items };
}

impl PackedSchedule {
    pub(crate) fn from_rows(rows: Vec<PackedRow>) -> Self
        requires { IsSchedule rows.items }
        ensures { result ≡ rows.items }
    {
        PackedSchedule { rows }
    }

    /// The rows in order, and what holds of them.
    #[tactic(auto, using(crate::proofs::OrdersLemmas::numbered, crate::proofs::OrdersLemmas::never_fall))]
    pub fn rows(&self) -> &[PackedRow]
        ensures rows { result.now ≡ self.now }
        ensures schedule { IsSchedule self.now }
        ensures numbered { AreNumbered self.now }
        ensures never_fall { NeverFall self.now }
    {
        self.rows.as_slice()
    }

    // The list of the rows.
    pub(crate) fn into_rows(self) -> Vec<PackedRow>
        ensures rows { result.items ≡ self }
        ensures schedule { IsSchedule self }
    {
        self.rows
    }

    /// Returns the schedule with whole rows. Returns `OutOfMemory` if an allocation fails.
    pub fn unpack(self, alloc: Global) -> Result<Schedule, OutOfMemory>
        ensures { IfOk result (λ rows. rows ≡ self) }
    {
        let rows = self.rows.iter().map(|row| row.row()).collect(alloc)?;
        Ok(Schedule::from_rows(rows))
    }
}
