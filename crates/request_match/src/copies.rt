// Copies of what of records must agree with a request.
ghost use Rattle.std.specs.Prelude.{◌≡◌, ◌<◌, Decides, IfOk, All, length};
ghost use Rattle.request_match.specs.inside.Index.{Entry, HasCopy, HasCopiesTo, head_copy};

use crate::matching::{Asked, same_value, without_query};
use http_frame::RequestHead;
use record_store::Record;
use std::alloc::Global;
use text_base::{Bytes, OutOfMemory};

/// A copy of what of a record's head must agree with a request. The copies are made one after the other for all
/// records, so that they lie closer together than the records do.
#[derive(Drop)]
pub(crate) struct HeadCopy {
    pub front: Bytes,
    pub host: Option<Bytes>,
    pub agent: Option<Bytes>,
}

impl HeadCopy {
    // Copies what must agree with this head. Returns `OutOfMemory` where an allocation fails.
    fn new(alloc: Global, head: &RequestHead) -> Result<HeadCopy, OutOfMemory>
        ensures { IfOk result (λ copy. copy ≡ head_copy head.now) }
    {
        let front = Bytes::from_slice(alloc, without_query(head.line.as_slice()))?;
        let host = head.host.clone()?;
        let agent = head.agent.clone()?;
        Ok(HeadCopy { front, host, agent })
    }

    /// Returns whether the request agrees in all of this.
    pub(crate) fn agrees(&self, asked: &Asked<'_>) -> bool
        ensures { Decides result (self.now ≡ head_copy asked.now.request.now) }
    {
        if self.front.as_slice() != asked.front {
            return false;
        }
        if !same_value(&self.host, &asked.request.host) {
            return false;
        }
        same_value(&self.agent, &asked.request.agent)
    }
}

// Returns a copy of what must agree with the record of entry `i`. Returns `OutOfMemory` where an allocation fails.
fn copy_at(
    alloc: Global,
    records: &[Record],
    entries: &[(u64, usize)],
    i: usize,
) -> Result<HeadCopy, OutOfMemory>
    requires inside { i < length entries.now }
    requires places { All (λ (e : Entry). e.1 < length records.now) entries.now }
    ensures { IfOk result (HasCopy records.now entries.now i) }
{
    let (_, place) = entries[i];
    HeadCopy::new(alloc, &records[place].request.head)
}

/// Returns copies of what must agree with the record of each entry. Returns `OutOfMemory` where an allocation fails.
pub(crate) fn copies_of(
    alloc: Global,
    records: &[Record],
    entries: &[(u64, usize)],
) -> Result<Vec<HeadCopy>, OutOfMemory>
    requires { All (λ (e : Entry). e.1 < length records.now) entries.now }
    ensures { IfOk result (λ v. HasCopiesTo records.now entries.now (length entries.now) v.items) }
{
    let mut copies = Vec::with_capacity(alloc, entries.len())?;
    for i in 0..entries.len() {
        copies.push(copy_at(alloc, records, entries, i)?)?;
    }
    Ok(copies)
}
