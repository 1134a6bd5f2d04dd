// The entries of an index: keys and places in order, and what neighbours have in common.
ghost use Rattle.std.specs.Prelude.{◌<◌, Option, IfOk, IfSome, OnOk, All, IsPermutation, length};
ghost use Rattle.std.specs.List.Sorted.{IsNonDecreasingBy};
ghost use Rattle.request_match.specs.inside.Index.{Entry, IsEntry, HasAllTo, IsShared, HasFront, HasFrontsTo};

use crate::keys::key;
use crate::matching::{agrees, common_front, fits_port};
use record_store::Record;
use std::alloc::Global;
use std::cmp::Ordering;
use text_base::OutOfMemory;

// Returns the entries of the records that fit the port, in the order of the records.
fn entries_of(
    alloc: Global,
    records: &[Record],
    port: Option<u16>,
) -> Result<Vec<(u64, usize)>, OutOfMemory>
    ensures entries { IfOk result (λ v. All (IsEntry records.now port) v.items) }
    ensures whole { IfOk result (λ v. HasAllTo records.now port (length records.now) v.items) }
{
    let mut entries = Vec::new(alloc);
    for (place, exchange) in records.iter().enumerate() {
        if fits_port(exchange.port, port) {
            entries.push((key(&exchange.request.head), place))?;
        }
    }
    Ok(entries)
}

// Returns the order of the lines of the records at two places. Only the speed of an index depends on it.
fn line_order(records: &[Record], a: usize, b: usize) -> Ordering {
    match (records.get(a), records.get(b)) {
        (Some(a), Some(b)) => {
            let a = a.request.head.line.as_slice();
            let b = b.request.head.line.as_slice();
            let front = common_front(a, b);
            a.get(front).cmp(&b.get(front))
        }
        _ => Ordering::Equal,
    }
}

// Puts the entries in the order of their keys, and those of one key in the order of their lines, so that neighbours
// have much in common.
fn put_in_order(records: &[Record], entries: &mut Vec<(u64, usize)>) -> Result<(), OutOfMemory>
    ensures moved { IsPermutation entries.old.items entries.new.items }
    ensures ordered { OnOk result (IsNonDecreasingBy (λ (e : Entry). e.0) entries.new.items) }
{
    entries.sort_unstable_by(|a, b| line_order(records, a.1, b.1));
    entries.sort_by_key(|entry| entry.0)?;
    Ok(())
}

/// Returns the entries of the records that fit the port, in order.
pub(crate) fn ordered_entries(
    alloc: Global,
    records: &[Record],
    port: Option<u16>,
) -> Result<Vec<(u64, usize)>, OutOfMemory>
    ensures entries { IfOk result (λ v. All (IsEntry records.now port) v.items) }
    ensures whole { IfOk result (λ v. HasAllTo records.now port (length records.now) v.items) }
    ensures ordered { IfOk result (λ v. IsNonDecreasingBy (λ (e : Entry). e.0) v.items) }
{
    let mut entries = entries_of(alloc, records, port)?;
    put_in_order(records, &mut entries)?;
    Ok(entries)
}

// Returns how many bytes the lines of two records have in common at their front, or `None` where one may agree with a
// request with which the other doesn't.
fn shared_front(before: &Record, exchange: &Record) -> Option<usize>
    ensures { IfSome result (IsShared before.now exchange.now) }
{
    if !agrees(exchange, &before.request.head, None) {
        return None;
    }
    Some(common_front(
        before.request.head.line.as_slice(),
        exchange.request.head.line.as_slice(),
    ))
}

// Returns what the record of entry `i` shares with that of the entry before it.
fn front_at(records: &[Record], entries: &[(u64, usize)], i: usize) -> Option<usize>
    requires inside { i < length entries.now }
    requires places { All (λ (e : Entry). e.1 < length records.now) entries.now }
    ensures { HasFront records.now entries.now i result }
{
    if i == 0 {
        return None;
    }
    let (_, before) = entries[i - 1];
    let (_, place) = entries[i];
    shared_front(&records[before], &records[place])
}

/// Returns what the record of each entry shares with that of the entry before it.
pub(crate) fn fronts_of(
    alloc: Global,
    records: &[Record],
    entries: &[(u64, usize)],
) -> Result<Vec<Option<usize>>, OutOfMemory>
    requires { All (λ (e : Entry). e.1 < length records.now) entries.now }
    ensures { IfOk result (λ v. HasFrontsTo records.now entries.now (length entries.now) v.items) }
{
    let mut fronts = Vec::with_capacity(alloc, entries.len())?;
    for i in 0..entries.len() {
        fronts.push(front_at(records, entries, i))?;
    }
    Ok(fronts)
}
