// The rows whose fates are marked, whole or packed.
ghost use Rattle.std.specs.Prelude.{◌≡◌, length, slice_get};
ghost use Rattle.nest_spec.specs.views.MarkedRows.{rows_in};

use packet_record::{PackedRow, Row};

// Rows of a run, as their owner has them.
#[derive(Clone, Copy)]
pub(crate) enum MarkedRows<'a> {
    Whole(&'a [Row]),
    Packed(&'a [PackedRow]),
}

impl<'a> MarkedRows<'a> {
    // Returns how many rows there are.
    #[inline(always)]
    pub(crate) fn len(self) -> usize
        ensures { result ≡ length (rows_in self.entry) }
    {
        match self {
            MarkedRows::Whole(rows) => rows.len(),
            MarkedRows::Packed(rows) => rows.len(),
        }
    }

    // Returns the row at `place`, if there is one.
    pub(crate) fn get(self, place: usize) -> Option<Row>
        ensures { result ≡ slice_get (rows_in self.entry) place }
    {
        match self {
            MarkedRows::Whole(rows) => rows.get(place).copied(),
            MarkedRows::Packed(rows) => rows.get(place).map(|row| row.row()),
        }
    }
}
