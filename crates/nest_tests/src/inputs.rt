// Traces, queues, rates and schedules, read from texts that must be right. No clause says what is read, so a test knows
// only what it looks at.
use loss_core::{Rate, read_rate};
use packet_queue::{QueueSpec, read_queue};
use packet_record::{Row, Schedule, Timed, make_load, read_schedule};
use std::alloc::Global;
use std::process::Abort;
use text_base::limits::MOST_LINES;
use text_base::{Bytes, OutOfMemory};
use trace_reader::{Trace, read_trace};

pub fn trace_of(rt: &impl Abort, alloc: Global, text: &[u8]) -> Trace {
    read_trace(alloc, text).expect(rt, "a trace")
}

pub fn queue_of(rt: &impl Abort, kind: &str, args: &str) -> QueueSpec {
    read_queue(kind, args).expect(rt, "a queue")
}

pub fn rate_of(rt: &impl Abort, text: &str) -> Rate {
    read_rate(text).expect(rt, "a rate")
}

pub fn schedule_of(rt: &impl Abort, alloc: Global, text: &[u8]) -> Schedule {
    read_schedule(alloc, text).expect(rt, "a schedule")
}

// Returns the load that is made of `number`, of `rows` rows.
pub fn load_of(rt: &impl Abort, alloc: Global, number: u64, rows: u32) -> Schedule {
    assert!(rt; 1 <= rows && rows <= MOST_LINES);
    make_load(alloc, number, rows).expect(rt, "memory")
}

// Returns the packets of rows.
fn packets_in(rt: &impl Abort, alloc: Global, rows: &[Row]) -> Vec<Timed> {
    let mut packets = Vec::new(alloc);
    for row in rows {
        packets.push(row.timed).expect(rt, "memory");
    }
    packets
}

// Returns the packets of a schedule's text.
pub fn packets_of(rt: &impl Abort, alloc: Global, text: &[u8]) -> Vec<Timed> {
    packets_in(rt, alloc, schedule_of(rt, alloc, text).rows())
}

// Returns whether a text was made and is `said`.
pub fn is_text(rt: &impl Abort, text: Result<Bytes, OutOfMemory>, said: &[u8]) -> bool {
    text.expect(rt, "memory").as_slice() == said
}
