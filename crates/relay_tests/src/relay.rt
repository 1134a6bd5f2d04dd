// Relays over a clock and a wire in memory, and the real ones.
ghost use Rattle.std.specs.Prelude.{◌≤◌};

use crate::clocks::{Times, clock_of};
use crate::nests::nest_of;
use live_relay::{Clock, MemWire, Received, RelayEnd, RelayError, RelayResult, Side, Wire, relay};
use nest_spec::{NamedLog, Nest, RunResult, print_fates};
use shell_log::print_log;
use std::alloc::Global;
use std::process::Abort;
use text_base::{Bytes, OutOfMemory};

mod edges;
mod ends;
mod many;
mod passed;
mod rests;
mod stops;
mod user;

// What a receive returns: the side and how many bytes.
type Answer = Option<(Side, usize)>;

// A datagram of `size` bytes, all of them `value`.
fn datagram(alloc: Global, size: usize, value: u8) -> Result<Bytes, OutOfMemory> {
    Ok(Bytes::from_vec(vec![in alloc; value; size]?))
}

// An answer, whose bytes have this value.
fn entry_of(
    alloc: Global,
    answer: Answer,
    value: u8,
) -> Result<Option<(Side, Bytes)>, OutOfMemory> {
    match answer {
        Some((side, size)) => Ok(Some((side, datagram(alloc, size, value)?))),
        None => Ok(None),
    }
}

// A wire with these answers. The bytes of a datagram have the number of its receive, modulo 256.
fn wire_of(alloc: Global, answers: &[Answer], fails: &[u64]) -> Result<MemWire, OutOfMemory> {
    let mut list = Vec::new(alloc);
    let mut value = 0u8;
    for answer in answers {
        value = value.wrapping_add(1);
        list.push(entry_of(alloc, *answer, value)?)?;
    }
    Ok(MemWire::new(alloc, list, Vec::from_slice(alloc, fails)?))
}

// A relay. It says nothing of what it did, so that a test has only what it looks at.
fn relay_by<C: Clock, W: Wire>(
    alloc: Global,
    nest: Nest,
    turns: u32,
    clock: &mut C,
    wire: &mut W,
) -> Result<RelayResult, RelayError>
    requires some { 1 ≤ turns }
    requires few { turns ≤ 1000000 }
{
    relay(alloc, nest, turns, clock, wire)
}

// What a relay has passed, and its wire.
#[derive(Drop)]
struct Done {
    relayed: RelayResult,
    wire: MemWire,
}

// A relay over a wire with these answers, and all that comes of it.
struct Case {
    nest: &'static str,
    horizon: u64,
    turns: u32,
    times: Times,
    answers: &'static [Answer],
    // The fates, and then the logs.
    text: &'static [u8],
    logs: usize,
    rows: usize,
    refused: u32,
    end: RelayEnd,
    last: u64,
    // How many datagrams had been sent to the server when each receive began.
    before: &'static [usize],
    // The sizes of what was sent to each side.
    to_server: &'static [usize],
    to_client: &'static [usize],
}

// What a case's relay over this wire has passed.
fn relayed_by(rt: &impl Abort, alloc: Global, case: &Case, wire: &mut MemWire) -> RelayResult {
    assert!(rt; 1 <= case.turns && case.turns <= 1_000_000);
    let nest = nest_of(rt, alloc, case.nest, case.horizon);
    let mut clock = clock_of(alloc, &case.times).expect(rt, "memory");
    relay_by(alloc, nest, case.turns, &mut clock, wire).expect(rt, "a relay")
}

// A case's relay that is done.
fn done_by(rt: &impl Abort, alloc: Global, case: &Case) -> Done {
    let mut wire = wire_of(alloc, case.answers, &[]).expect(rt, "memory");
    let relayed = relayed_by(rt, alloc, case, &mut wire);
    Done { relayed, wire }
}

fn put_logs(alloc: Global, text: &mut Bytes, logs: &[NamedLog]) -> Result<(), OutOfMemory> {
    for log in logs {
        text.append(print_log(alloc, &log.log)?.as_slice())?;
    }
    Ok(())
}

// The text of a run: its fates and its logs.
fn text_of(alloc: Global, run: &RunResult) -> Result<Bytes, OutOfMemory> {
    let mut text = print_fates(alloc, run.fates())?;
    put_logs(alloc, &mut text, run.logs())?;
    Ok(text)
}

// Whether this is the text of a run.
fn has_text(alloc: Global, run: &RunResult, text: &[u8]) -> Result<bool, OutOfMemory> {
    let said = text_of(alloc, run)?;
    Ok(said.as_slice() == text)
}

// Whether a relay has as many logs and rows as a case says, refused as many datagrams, and ended as it says.
fn is_end(relayed: &RelayResult, case: &Case) -> bool {
    relayed.run.logs().len() == case.logs
        && relayed.rows.as_slice().len() == case.rows
        && relayed.refused == case.refused
        && relayed.end == case.end
        && relayed.last == case.last
}

fn are_counts(received: &[Received], counts: &[usize]) -> bool {
    for (entry, count) in received.iter().zip(counts.iter()) {
        if entry.server != *count {
            return false;
        }
    }
    received.len() == counts.len()
}

fn are_sizes(pieces: &[Bytes], sizes: &[usize]) -> bool {
    for (piece, size) in pieces.iter().zip(sizes.iter()) {
        if piece.len() != *size {
            return false;
        }
    }
    pieces.len() == sizes.len()
}

// Whether the datagrams that were sent to each side have these sizes.
fn sizes_are(wire: &MemWire, to_server: &[usize], to_client: &[usize]) -> bool {
    are_sizes(wire.sent(Side::Server), to_server) && are_sizes(wire.sent(Side::Client), to_client)
}

// Whether a wire has received and sent what a case says.
fn is_used(wire: &MemWire, case: &Case) -> bool {
    are_counts(wire.received(), case.before) && sizes_are(wire, case.to_server, case.to_client)
}

// A relay has come to what a case says.
fn is_as_said(rt: &impl Abort, alloc: Global, case: &Case, done: &Done) {
    assert!(rt; has_text(alloc, &done.relayed.run, case.text).expect(rt, "memory"));
    assert!(rt; is_end(&done.relayed, case));
    assert!(rt; is_used(&done.wire, case));
}

// A case's relay, which comes to what the case says.
fn passes(rt: &impl Abort, alloc: Global, case: &Case) -> Done {
    let done = done_by(rt, alloc, case);
    is_as_said(rt, alloc, case, &done);
    done
}
