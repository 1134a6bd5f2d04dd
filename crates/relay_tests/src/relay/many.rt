// Some thousand datagrams.
ghost use Rattle.std.specs.Prelude.{◌≤◌};

use super::{Answer, Done, has_text, relay_by, text_of, wire_of};
use crate::nests::nest_of;
use live_relay::{Clock, MemWire, RelayEnd, RelayResult, Side};
use nest_plain::run_plain;
use nest_spec::{Fate, Nest};
use packet_record::{Schedule, read_schedule};
use std::alloc::Global;
use std::process::Abort;
use text_base::{Bytes, OutOfMemory, print_lines};

// A clock that goes on by a millisecond at each call, and whose user ends at a moment. It tells no answers but the last.
#[derive(Drop)]
struct Ticks {
    latest: u64,
    end: u64,
}

impl Clock for Ticks {
    ghost use Rattle.std.specs.Prelude.{None, nat_le};

    ghost view = { λ c. record { moments = None; latest = c.latest; ended = nat_le c.end c.latest } };

    fn now(&mut self) -> u64 {
        self.latest = self.latest.saturating_add(1);
        self.latest
    }

    fn has_ended(&self) -> bool {
        self.end <= self.latest
    }
}

// Datagram `k`, counted from 0, of 1 to 1,504 bytes, two of the client and one of the server in turn.
fn answer_after(k: usize) -> Answer {
    let side = if k % 3 == 2 {
        Side::Server
    } else {
        Side::Client
    };
    Some((side, 1 + (k % 1_504) * 7 % 1_504))
}

fn answers_of(alloc: Global, count: usize) -> Result<Vec<Answer>, OutOfMemory> {
    let mut answers = Vec::new(alloc);
    for k in 0..count {
        answers.push(answer_after(k))?;
    }
    Ok(answers)
}

fn wire_with(alloc: Global, count: usize) -> Result<MemWire, OutOfMemory> {
    let answers = answers_of(alloc, count)?;
    wire_of(alloc, answers.as_slice(), &[])
}

// A relay of `count` datagrams, one each millisecond, whose user ends at this moment.
fn done_with(rt: &impl Abort, alloc: Global, nest: Nest, count: u32, end: u64) -> Done
    requires few { count ≤ 100000 }
{
    let mut wire = wire_with(alloc, count as usize).expect(rt, "memory");
    let mut clock = Ticks { latest: 0, end };
    let relayed = relay_by(alloc, nest, count + 10, &mut clock, &mut wire).expect(rt, "a relay");
    Done { relayed, wire }
}

// The rows of a relay, as they are read.
fn schedule_of(rt: &impl Abort, alloc: Global, relayed: &RelayResult) -> Schedule {
    let text = print_lines(alloc, b"", relayed.rows.as_slice()).expect(rt, "memory");
    read_schedule(alloc, text.as_slice()).expect(rt, "a schedule")
}

// The text of the plain run of a relay's rows.
fn plain_text(rt: &impl Abort, alloc: Global, nest: &Nest, relayed: &RelayResult) -> Bytes {
    let schedule = schedule_of(rt, alloc, relayed);
    let plain = run_plain(alloc, nest, &schedule).expect(rt, "memory");
    text_of(alloc, &plain).expect(rt, "memory")
}

// Whether a relay comes to what the plain run of its rows gives.
fn is_as_plain(rt: &impl Abort, alloc: Global, nest: &Nest, relayed: &RelayResult) -> bool {
    let said = plain_text(rt, alloc, nest, relayed);
    has_text(alloc, &relayed.run, said.as_slice()).expect(rt, "memory")
}

// Whether a relay took all its turns, `count` datagrams passed it, and some were sent to each side.
fn all_passed(done: &Done, count: usize) -> bool {
    done.relayed.end == RelayEnd::Turns
        && done.relayed.rows.as_slice().len() == count
        && !done.wire.sent(Side::Server).is_empty()
        && !done.wire.sent(Side::Client).is_empty()
}

// So many datagrams pass a nest, and it comes to what the plain run of their rows gives.
fn passes_as_plain(rt: &impl Abort, alloc: Global, nest: &str, count: u32)
    requires few { count ≤ 100000 }
{
    let relayed = nest_of(rt, alloc, nest, 100_000);
    let nest = nest_of(rt, alloc, nest, 100_000);
    let done = done_with(rt, alloc, relayed, count, u64::MAX);
    assert!(rt; all_passed(&done, count as usize));
    assert!(rt; is_as_plain(rt, alloc, &nest, &done.relayed));
}

const SHELLS: &str = "mm-delay 20 mm-loss uplink 0.1 mm-link t t --uplink-log=u --downlink-log=d";

#[test]
fn a_thousand_datagrams_pass_as_in_the_plain_run(rt: HostRuntime) {
    passes_as_plain(&rt, rt.alloc(), SHELLS, 1_000);
}

#[test]
fn some_thousand_datagrams_pass(rt: HostRuntime) {
    passes_as_plain(&rt, rt.alloc(), "mm-delay 3", 5_000);
}

// How many of a relay's packets have departed.
fn departed_in(relayed: &RelayResult) -> usize {
    let mut count = 0usize;
    for row in relayed.run.fates() {
        if let Fate::Departed { .. } = row.fate {
            count = count.saturating_add(1);
        }
    }
    count
}

// Its user ends a relay at 500: it comes to what the plain run of its rows up to 500 gives, and as many were sent as
// departed there.
#[test]
fn what_was_sent_by_its_user_s_end_has_departed(rt: HostRuntime) {
    let alloc = rt.alloc();
    let done = done_with(&rt, alloc, nest_of(&rt, alloc, SHELLS, 100_000), 1_000, 500);
    let sent = done.wire.sent(Side::Server).len() + done.wire.sent(Side::Client).len();
    assert!(rt; done.relayed.end == RelayEnd::User && done.relayed.last == 500);
    assert!(rt; sent > 100 && sent == departed_in(&done.relayed));
    assert!(rt; is_as_plain(&rt, alloc, &nest_of(&rt, alloc, SHELLS, 500), &done.relayed));
}
