// The rows of several schedules, merged into one list.
ghost use Rattle.std.specs.Prelude.{◌≡◌, ◌≤◌, ◌+◌, ◌*◌, ◌∷◌, drop, length, slice_get, IfNone, IfOk, IfSome, OnOk, Some};
ghost use Rattle.sender_merge.specs.Merges.{by_moment, row_moment, rows_from};
ghost use Rattle.sender_merge.specs.inside.RowMerges.{IsLate, IsSoon, Sorted, left_from};
ghost use Rattle.sender_merge.specs.inside.RowMerges.{limit_before as limit_of};
ghost use Rattle.sender_merge.specs.RowLists.{rows_in};
ghost use Rattle.sender_merge.specs.inside.RowLists.{AllSchedules};

use crate::outlet::merged_row;
use packet_record::{PackedRow, PackedSchedule, Row, Schedule};
use std::alloc::Global;
use text_base::OutOfMemory;

// Returns the merge of `schedules`. No other list of rows is made: what the C library keeps of lists that are let go
// would stay in memory while the senders feed.
pub(crate) fn merge_schedules(
    alloc: Global,
    schedules: &[PackedSchedule],
) -> Result<Vec<Row>, OutOfMemory>
    requires { length schedules.now ≤ 16 }
    ensures schedules { OnOk result (AllSchedules schedules.now) }
    ensures rows { IfOk result (λ rows. rows.items ≡ by_moment row_moment (rows_from 1 schedules.now)) }
{
    let count = count_packed(schedules) as usize;
    let mut rows = Vec::with_capacity(alloc, count)?;
    let mut places = Vec::from_elem(alloc, 0, schedules.len())?;
    for _ in 0..count + 1 {
        match take_before(1, schedules, places.as_mut_slice(), None) {
            Some(row) => rows.push(row)?,
            None => return Ok(rows),
        }
    }
    unreachable!()
}

// Returns the row at `place`, if there is one.
fn row_at(rows: &[PackedRow], place: usize) -> Option<Row>
    ensures { result ≡ slice_get rows.now place }
{
    rows.get(place).map(|row| row.row())
}

// Returns the row at `place`, if there is one and it is before `limit`.
fn row_before(rows: &[PackedRow], place: usize, limit: Option<u64>) -> Option<Row>
    requires { Sorted row_moment rows.now }
    ensures some { IfSome result (λ row. slice_get rows.now place ≡ Some row) }
    ensures soon { IfSome result (IsSoon limit) }
    ensures none { IfNone result (IsLate limit (drop place rows.now)) }
{
    let Some(row) = row_at(rows, place) else {
        return None;
    };
    match limit {
        Some(moment) if row.timed.moment >= moment => None,
        _ => Some(row),
    }
}

// Returns the limit of rows that are to come before `head`, or `limit` if there is no head.
fn limit_before(head: Option<Row>, limit: Option<u64>) -> Option<u64>
    ensures { result ≡ limit_of head limit }
{
    match head {
        Some(row) => Some(row.timed.moment),
        None => limit,
    }
}

// Takes the next row of the merge of what is left of `schedules`, if it is before `limit`. `sender` is the number of
// the first one's sender, and `places` are the places of the rows that come next in them. A row of a schedule comes
// before one of a later schedule at the same moment.
fn take_before(
    sender: u32,
    schedules: &[PackedSchedule],
    places: &mut [usize],
    limit: Option<u64>,
) -> Option<Row>
    requires few { sender + length schedules.now ≤ 17 }
    requires long { length places.old ≡ length schedules.now }
    ensures schedules { AllSchedules schedules.now }
    ensures long { length places.new ≡ length places.old }
    ensures some { IfSome result (λ row. by_moment row_moment (left_from sender schedules.now places.old)
        ≡ row ∷ by_moment row_moment (left_from sender schedules.now places.new)) }
    ensures soon { IfSome result (IsSoon limit) }
    ensures none { IfNone result (IsLate limit (left_from sender schedules.now places.old)) }
    ensures kept { IfNone result (places.new ≡ places.old) }
{
    let Some((place, other_places)) = places.split_first_mut() else {
        return None;
    };
    let Some((schedule, others)) = schedules.split_first() else {
        return None;
    };
    let head = row_before(schedule.rows(), *place, limit);
    let other_limit = limit_before(head, limit);
    if let Some(row) = take_before(sender + 1, others, other_places, other_limit) {
        return Some(row);
    }
    let Some(row) = head else {
        return None;
    };
    *place += 1;
    Some(merged_row(sender, row))
}

// Returns how many rows `schedules`, at most 16, have in all.
fn count_packed(schedules: &[PackedSchedule]) -> u64
    requires { length schedules.now ≤ 16 }
    ensures rows { result ≡ rows_in schedules.now }
    ensures most { result ≤ 1000000 * length schedules.now }
{
    let Some((first, others)) = schedules.split_first() else {
        return 0;
    };
    first.rows().len() as u64 + count_packed(others)
}

/// Returns how many rows `schedules`, at most 16, have in all. `Senders::new` takes at most 1,000,000.
pub fn count_rows(schedules: &[Schedule]) -> u64
    requires { length schedules.now ≤ 16 }
    ensures rows { result ≡ rows_in schedules.now }
    ensures most { result ≤ 1000000 * length schedules.now }
{
    let Some((first, others)) = schedules.split_first() else {
        return 0;
    };
    first.rows().len() as u64 + count_rows(others)
}
