// Why no record answers a request.
use http_frame::RequestHead;
use record_store::Record;
use text_base::Bytes;

// How far a record agrees with a request: the first of its port, Host, User-Agent and line that doesn't.
#[derive(Clone, Copy, PartialEq, Eq)]
pub(crate) enum Miss {
    Port,
    Host,
    Agent,
    Line,
}

// The record that agrees furthest of those that don't agree, the first of several, and how far.
#[derive(Clone, Copy)]
pub(crate) struct Nearest<'a> {
    pub miss: Miss,
    pub number: usize,
    pub record: &'a Record,
}

// Whether both values are there and equal, or neither is there.
fn is_same(a: &Option<Bytes>, b: &Option<Bytes>) -> bool {
    match (a, b) {
        (Some(a), Some(b)) => a.as_slice() == b.as_slice(),
        (None, None) => true,
        _ => false,
    }
}

// How far a record agrees that doesn't.
fn miss_of(record: &Record, request: &RequestHead, site: u16) -> Miss {
    let recorded = &record.request.head;
    if record.port != 0 && record.port != site {
        Miss::Port
    } else if !is_same(&recorded.host, &request.host) {
        Miss::Host
    } else if !is_same(&recorded.agent, &request.agent) {
        Miss::Agent
    } else {
        Miss::Line
    }
}

// Whether a record agrees further than the nearest so far.
fn is_nearer(miss: Miss, nearest: &Option<Nearest<'_>>) -> bool {
    match nearest {
        Some(nearest) => (miss as u8) > (nearest.miss as u8),
        None => true,
    }
}

// The nearest of the records, of which none agrees. None if there are no records.
pub(crate) fn find_nearest<'a>(
    records: &'a [Record],
    request: &RequestHead,
    site: u16,
) -> Option<Nearest<'a>> {
    let mut nearest = None;
    for (i, record) in records.iter().enumerate() {
        let miss = miss_of(record, request, site);
        if is_nearer(miss, &nearest) {
            nearest = Some(Nearest {
                miss,
                number: i.saturating_add(1),
                record,
            });
        }
    }
    nearest
}
