// Finds the row of a packet by its number.
ghost use Rattle.std.specs.Prelude.{◌≡◌, ◌≢◌, ◌≤◌, ◌<◌, ◌-◌, ◌+◌, ℕ, MatchOption, IfOk, OnOk, Some, length, slice_get};
ghost use Rattle.packet_record.specs.Rows.{AreApart};
ghost use Rattle.nest_spec.specs.inside.Index.{IsIndex, IsNowhere, IsOnlyAt, AreFromOne, AreListed};
ghost use Rattle.nest_spec.specs.inside.Index.{place_in as place_of_number};
ghost use Rattle.nest_spec.specs.inside.Places.{ArePlaces};
ghost use Rattle.nest_spec.specs.views.MarkedRows.{rows_in};
ghost use Rattle.std.specs.Bool.{OnTrue};

use crate::marked_rows::MarkedRows;
use packet_record::Row;
use std::alloc::Global;
use std::collections::HashMap;
use text_base::OutOfMemory;

// How many lists the places stand in. A merge of several senders numbers the packets of its sender `s` by `s`,
// `s + 16`, `s + 32` and so on, so each sender has a list without gaps.
const LISTS: u32 = 16;

// Where the row of each number stands.
#[derive(Drop)]
pub(crate) enum Places {
    // The rows are numbered 1, 2, 3 and so on, as in a schedule.
    Numbered,
    // The place of the number n stands in the list n % 16 at n / 16. Where no row has n, there may be any place.
    Listed(Vec<Vec<u32>>),
    // The index has the place of each number.
    Indexed(HashMap<u32, usize>),
}

// Returns whether the rows are numbered 1, 2, 3 and so on.
fn are_numbered(rows: &[Row]) -> bool
    ensures { OnTrue result (AreFromOne rows.now) }
{
    for (i, row) in rows.iter().enumerate() {
        if row.timed.packet.id as usize != i + 1 {
            return false;
        }
    }
    true
}

// Returns the place of each row by its number.
fn index_of(alloc: Global, rows: &[Row]) -> Result<HashMap<u32, usize>, OutOfMemory>
    requires apart { AreApart rows.now }
    ensures { IfOk result (λ m. IsIndex rows.now m) }
{
    let mut index = HashMap::new(alloc);
    for (i, row) in rows.iter().enumerate() {
        match index.insert(row.timed.packet.id, i) {
            Ok(_) => {}
            Err(_) => return Err(OutOfMemory),
        }
    }
    Ok(index)
}

// Returns whether each list of places would be at most as long as the rows.
fn are_close(rows: &[Row]) -> bool
    ensures { OnTrue result (length rows.now ≤ 4294967295) }
{
    let count = rows.len();
    count <= u32::MAX as usize
        && rows
            .iter()
            .all(|row| ((row.timed.packet.id / LISTS) as usize) < count)
}

// Returns sixteen empty lists.
fn empty_lists(alloc: Global) -> Result<Vec<Vec<u32>>, OutOfMemory>
    ensures { IfOk result (λ lists. length lists.items ≡ 16) }
{
    let mut lists = Vec::with_capacity(alloc, LISTS as usize)?;
    for _ in 0..LISTS {
        lists.push(Vec::new(alloc))?;
    }
    Ok(lists)
}

// Makes `list` longer than `at`, if it isn't.
fn reach(list: &mut Vec<u32>, at: usize) -> Result<(), OutOfMemory>
    requires small { at ≤ 268435455 }
    ensures long { OnOk result (at < length list.new.items) }
    ensures kept { OnOk result ((k i : ℕ) → slice_get list.old.items k ≡ Some i
        → slice_get list.new.items k ≡ Some i) }
{
    if list.len() <= at {
        list.resize(at + 1, 0)?;
    }
    Ok(())
}

// Puts `place` into `list` at `at`.
fn put_place(list: &mut Vec<u32>, at: usize, place: u32) -> Result<(), OutOfMemory>
    requires small { at ≤ 268435455 }
    ensures here { OnOk result (slice_get list.new.items at ≡ Some place) }
    ensures kept { OnOk result ((k i : ℕ) → k ≢ at → slice_get list.old.items k ≡ Some i
        → slice_get list.new.items k ≡ Some i) }
{
    reach(list, at)?;
    list[at] = place;
    Ok(())
}

// Puts `place` where the lists have that of the number `id`.
fn list_place(lists: &mut Vec<Vec<u32>>, id: u32, place: u32) -> Result<(), OutOfMemory>
    requires { length lists.old.items ≡ 16 }
    ensures long { OnOk result (length lists.new.items ≡ 16) }
    ensures here { OnOk result (place_of_number lists.new.items id ≡ Some place) }
    ensures kept { OnOk result ((other i : ℕ) → other ≢ id → place_of_number lists.old.items other ≡ Some i
        → place_of_number lists.new.items other ≡ Some i) }
{
    let list = &mut lists[(id % LISTS) as usize];
    put_place(list, (id / LISTS) as usize, place)?;
    Ok(())
}

// Returns the lists of the rows' places.
fn lists_of(alloc: Global, rows: &[Row]) -> Result<Vec<Vec<u32>>, OutOfMemory>
    requires apart { AreApart rows.now }
    requires few { length rows.now ≤ 4294967295 }
    ensures { IfOk result (λ lists. AreListed rows.now lists.items) }
{
    let mut lists = empty_lists(alloc)?;
    for (i, row) in rows.iter().enumerate() {
        list_place(&mut lists, row.timed.packet.id, i as u32)?;
    }
    Ok(lists)
}

// Returns where the rows stand. Nothing is made where they are numbered 1, 2, 3 and so on. Else lists are made, where
// none of them is longer than the rows: they take 4 bytes a row for the numbers of a merge, and up to 64 for others.
// Where one would be longer, as for numbers far apart, an index is made, which takes some 32 bytes a row.
pub(crate) fn places_of(alloc: Global, rows: &[Row]) -> Result<Places, OutOfMemory>
    requires apart { AreApart rows.now }
    ensures { IfOk result (λ places. ArePlaces rows.now places) }
{
    if are_numbered(rows) {
        return Ok(Places::Numbered);
    }
    if are_close(rows) {
        return Ok(Places::Listed(lists_of(alloc, rows)?));
    }
    let index = index_of(alloc, rows)?;
    Ok(Places::Indexed(index))
}

// Returns what `list` has at `at`, if it is that long.
fn place_at(list: &[u32], at: usize) -> Option<u32>
    ensures { result ≡ slice_get list.now at }
{
    list.get(at).copied()
}

// Returns the place that the lists have for the number `id`, if they have one.
fn place_in(lists: &[Vec<u32>], id: u32) -> Option<u32>
    ensures { result ≡ place_of_number lists.now id }
{
    let Some(list) = lists.get((id % LISTS) as usize) else {
        return None;
    };
    place_at(list.as_slice(), (id / LISTS) as usize)
}

// Returns the place of the row `id`, if there is one, as the lists have it.
fn place_by_lists(lists: &[Vec<u32>], rows: MarkedRows<'_>, id: u32) -> Option<usize>
    requires { AreListed (rows_in rows) lists.now }
    ensures { MatchOption result (IsNowhere (rows_in rows.entry) id) (λ i. IsOnlyAt (rows_in rows.entry) id i) }
{
    let Some(place) = place_in(lists, id) else {
        return None;
    };
    let place = place as usize;
    let Some(row) = rows.get(place) else {
        return None;
    };
    if row.timed.packet.id == id {
        Some(place)
    } else {
        None
    }
}

// Returns the place of the row `id`, if there is one, of rows that are numbered 1, 2, 3 and so on.
fn place_by_number(rows: MarkedRows<'_>, id: u32) -> Option<usize>
    requires { AreFromOne (rows_in rows) }
    ensures { MatchOption result (IsNowhere (rows_in rows.entry) id) (λ i. IsOnlyAt (rows_in rows.entry) id i) }
{
    let number = id as usize;
    if number == 0 || number > rows.len() {
        return None;
    }
    Some(number - 1)
}

// Returns the place of the row `id`, if there is one, as the index has it.
fn place_by_index(index: &HashMap<u32, usize>, rows: MarkedRows<'_>, id: u32) -> Option<usize>
    requires { IsIndex (rows_in rows) index.now }
    ensures { MatchOption result (IsNowhere (rows_in rows.entry) id) (λ i. IsOnlyAt (rows_in rows.entry) id i) }
{
    let _ = rows;
    index.get(&id).copied()
}

// Returns the place of the row `id`, if there is one.
pub(crate) fn place_of(places: &Places, rows: MarkedRows<'_>, id: u32) -> Option<usize>
    requires { ArePlaces (rows_in rows) places.now }
    ensures { MatchOption result (IsNowhere (rows_in rows.entry) id) (λ i. IsOnlyAt (rows_in rows.entry) id i) }
{
    match places {
        Places::Numbered => place_by_number(rows, id),
        Places::Listed(lists) => place_by_lists(lists.as_slice(), rows, id),
        Places::Indexed(index) => place_by_index(index, rows, id),
    }
}
