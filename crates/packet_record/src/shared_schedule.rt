// A schedule whose rows several holders share.
ghost use Rattle.std.specs.Prelude.{◌≡◌, IfOk};
ghost use Rattle.packet_record.specs.Orders.{IsSchedule, AreNumbered, NeverFall};

use crate::{PackedRow, PackedSchedule};
use std::marker::Model;
use std::sync::ArcSlice;
use text_base::OutOfMemory;

/// A `PackedSchedule` whose list of rows is shared by its copies. Contracts see it as the list of its rows.
#[derive(Drop)]
pub struct SharedSchedule {
    rows: ArcSlice<PackedRow>,
}

impl Model for SharedSchedule {
    ghost use Rattle.std.specs.Prelude.{List};
    ghost use Rattle.std.specs.Arc.{arc_slice_items};
    ghost use Rattle.packet_record.specs.Orders.{IsSchedule};
    ghost use Rattle.packet_record.specs.declared.packet.Row.{Row as RowValue};

    ghost Value = { List RowValue };

    ghost view = { λ s. arc_slice_items s.rows };

    ghost invariant = { λ s. IsSchedule (arc_slice_items s.rows) };
}

impl SharedSchedule {
    /// The rows in order, and what holds of them.
    #[tactic(auto, using(crate::proofs::OrdersLemmas::numbered, crate::proofs::OrdersLemmas::never_fall))]
    pub fn rows(&self) -> &[PackedRow]
        ensures rows { result.now ≡ self.now }
        ensures schedule { IsSchedule self.now }
        ensures numbered { AreNumbered self.now }
        ensures never_fall { NeverFall self.now }
    {
        self.rows.as_slice()
    }

    /// Another holder of the same rows, or out of memory.
    pub fn copy(&self) -> Result<Self, OutOfMemory>
        ensures { IfOk result (λ s. s ≡ self.now) }
    {
        Ok(SharedSchedule {
            rows: self.rows.clone()?,
        })
    }
}

impl PackedSchedule {
    /// The schedule, whose rows may then be shared, or out of memory. No row is copied.
    pub fn share(self) -> Result<SharedSchedule, OutOfMemory>
        ensures { IfOk result (λ s. s ≡ self) }
    {
        Ok(SharedSchedule {
            rows: ArcSlice::from_vec(self.into_rows())?,
        })
    }
}
