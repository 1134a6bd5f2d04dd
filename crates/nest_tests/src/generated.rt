// Links, queues and packets that are drawn by a generator of numbers.
ghost use Rattle.std.specs.Prelude.{◌<◌};

use crate::inputs::{packets_of, trace_of};
use crate::packets::put_line;
use packet_queue::{QueueKind, QueueSpec};
use packet_record::Timed;
use std::alloc::Global;
use std::process::Abort;
use text_base::{Bytes, OutOfMemory};
use trace_reader::{Opportunity, Trace};

// A generator of numbers.
#[derive(Drop)]
pub struct Numbers {
    state: u64,
}

impl Numbers {
    pub fn new(state: u64) -> Numbers {
        Numbers { state }
    }

    // Returns the next number, which is below `limit`, or 0 where `limit` is 0.
    pub fn below(&mut self, limit: u16) -> u16
        ensures { 0 < limit → result < limit }
    {
        self.state = self
            .state
            .wrapping_mul(6364136223846793005)
            .wrapping_add(1442695040888963407);
        if limit == 0 {
            0
        } else {
            ((self.state >> 33) % u64::from(limit)) as u16
        }
    }
}

// Lines to draw: how many, the limit of the gap between the moments of two, the text between moment and size, and the
// sizes to choose from.
struct Lines {
    count: u32,
    gap: u16,
    between: &'static [u8],
    sizes: &'static [u64],
}

// Returns one of the sizes.
fn some_size(numbers: &mut Numbers, sizes: &[u64]) -> u64 {
    let limit = u16::try_from(sizes.len()).unwrap_or(u16::MAX);
    let drawn = numbers.below(limit);
    sizes.get(usize::from(drawn)).copied().unwrap_or(1)
}

// Adds the lines to `text`, and returns the last moment.
fn put_lines(text: &mut Bytes, numbers: &mut Numbers, lines: &Lines) -> Result<u64, OutOfMemory> {
    let mut moment: u64 = 0;
    for _ in 0..lines.count {
        moment = moment.saturating_add(u64::from(numbers.below(lines.gap)));
        put_line(text, moment, lines.between, some_size(numbers, lines.sizes))?;
    }
    Ok(moment)
}

static OPPORTUNITIES: Lines = Lines {
    count: 3,
    gap: 4,
    between: b" ",
    sizes: &[1, 701, 1401],
};

// Returns a trace of four opportunities.
pub fn some_trace(rt: &impl Abort, alloc: Global, numbers: &mut Numbers) -> Trace {
    let mut text = Bytes::from_slice(alloc, b"# mm-trace 2\n").expect(rt, "memory");
    let last = put_lines(&mut text, numbers, &OPPORTUNITIES).expect(rt, "memory");
    put_line(&mut text, last.saturating_add(1), b" ", 1504).expect(rt, "memory");
    trace_of(rt, alloc, text.as_slice())
}

static ROWS: Lines = Lines {
    count: 9,
    gap: 3,
    between: b" up ",
    sizes: &[1, 100, 700, 1504],
};

// Returns nine packets that go up.
pub fn some_packets(rt: &impl Abort, alloc: Global, numbers: &mut Numbers) -> Vec<Timed> {
    let mut text = Bytes::new(alloc);
    put_lines(&mut text, numbers, &ROWS).expect(rt, "memory");
    packets_of(rt, alloc, text.as_slice())
}

// Returns no limit, or one of `unit` or twice that.
fn some_limit(numbers: &mut Numbers, unit: u64) -> Option<u64> {
    match numbers.below(3) {
        0 => None,
        n => Some(u64::from(n).saturating_mul(unit)),
    }
}

// Returns a queue of any kind, with limits or without.
pub fn some_queue(numbers: &mut Numbers) -> QueueSpec {
    let kind = match numbers.below(3) {
        0 => QueueKind::Infinite,
        1 => QueueKind::DropTail,
        _ => QueueKind::DropHead,
    };
    QueueSpec {
        kind,
        packets: some_limit(numbers, 1),
        bytes: some_limit(numbers, 800),
    }
}

// Returns the opportunities of a trace up to `horizon`, of the first 200.
pub fn opportunities_to(
    rt: &impl Abort,
    alloc: Global,
    trace: &Trace,
    once: bool,
    horizon: u64,
) -> Vec<Opportunity> {
    let mut opps = Vec::new(alloc);
    for j in 0..200 {
        if let Some(o) = trace.opportunity(j, once) {
            if o.moment <= horizon {
                opps.push(o).expect(rt, "memory");
            }
        }
    }
    opps
}
