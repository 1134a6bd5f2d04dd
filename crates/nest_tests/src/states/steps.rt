// Tests of states that go through tables of steps.
ghost use Rattle.std.specs.Prelude.{◌≡◌, ◌≤◌};

use super::{feed, is_open, is_over, state_of, take_one};
use crate::checks::check;
use crate::directions::Kind;
use crate::packets::timed;
use packet_record::{FlowEnd, Item};
use shell_state::{ShellState, Taken};
use std::alloc::Global;
use std::process::Abort;
use text_base::OutOfMemory;
use text_base::limits::HOUR;

// An item.
#[derive(Clone, Copy)]
enum What {
    // The moment and the number of a packet.
    Packet(u64, u32),
    // The moment of a mark.
    Mark(u64),
    // The end.
    End,
}

// Returns the item.
fn item_of(what: What) -> Item {
    match what {
        What::Packet(moment, id) => Item::Packet(timed(moment, id)),
        What::Mark(moment) => Item::Mark(moment),
        What::End => Item::End,
    }
}

// What is fed to a state, what a take must give, or how long its log must be by then.
#[derive(Clone, Copy)]
enum Step {
    // The item is fed.
    Feed(What),
    // A take gives the item.
    Give(What),
    // A take gives nothing, but burns this number of opportunities.
    Burn(u32),
    // There is nothing to take yet; the bound of what was fed is this.
    Wait(u64),
    // The log has this number of entries.
    Log(usize),
}

// Returns whether a take gives `answer`.
fn gives(state: &mut ShellState, most: u32, answer: Taken) -> Result<bool, OutOfMemory>
    requires { 1 ≤ most }
    ensures { state.new.horizon ≡ state.old.horizon }
{
    Ok(take_one(state, most)? == Some(answer))
}

// Returns how many entries the log of a state has so far.
fn log_lines(state: &ShellState) -> Result<usize, OutOfMemory> {
    match state.log()? {
        Some(log) => Ok(log.into_log()?.entries().len()),
        None => Ok(0),
    }
}

// Returns whether a step can be done and gives what it must.
fn does(state: &mut ShellState, horizon: u64, most: u32, step: Step) -> Result<bool, OutOfMemory>
    requires horizon { state.old.horizon ≡ horizon }
    requires most { 1 ≤ most }
    ensures { state.new.horizon ≡ horizon }
{
    match step {
        Step::Feed(what) => feed(state, horizon, item_of(what)),
        Step::Give(what) => gives(state, most, Taken::Item(item_of(what))),
        Step::Burn(burnt) => gives(state, most, Taken::Again { burnt }),
        Step::Wait(bound) => gives(state, most, Taken::NotYet { bound }),
        Step::Log(lines) => Ok(log_lines(state)? == lines),
    }
}

// Returns whether all steps can be done and give what they must.
fn play(
    state: &mut ShellState,
    horizon: u64,
    most: u32,
    steps: &[Step],
) -> Result<bool, OutOfMemory>
    requires horizon { state.old.horizon ≡ horizon }
    requires most { 1 ≤ most }
{
    'steps: for step in steps {
        if !does(state, horizon, most, *step)? {
            return Ok(false);
        }
    }
    Ok(true)
}

// A kind of shell, its horizon, how many opportunities a take may burn, the steps, and how the state must be after
// them.
struct Case {
    name: &'static str,
    kind: Kind,
    horizon: u64,
    most: u32,
    steps: &'static [Step],
    // How many packets were fed, were taken and were lost.
    counts: [usize; 3],
    // The numbers of the packets inside.
    inside: &'static [u32],
    // The bound of what was taken.
    bound: u64,
    // How many entries the log has.
    lines: usize,
}

// Returns whether the end was taken, and the log has `lines` entries.
fn has_ended(rt: &impl Abort, state: &ShellState, lines: usize) -> bool {
    is_over(state.taken().end()) && log_lines(state).expect(rt, "memory") == lines
}

// Returns how many packets were fed, were taken and were lost.
fn counts(state: &ShellState) -> [usize; 3] {
    [
        state.fed().packets().len(),
        state.taken().packets().len(),
        state.lost().len(),
    ]
}

// Returns whether the packets numbered in `inside` stay inside the state.
fn are_inside(rt: &impl Abort, state: &ShellState, inside: &[u32]) -> bool {
    state.inside().expect(rt, "memory").as_slice() == inside
}

// Returns whether the state is as the case expects after the steps, and isn't broken.
fn is_left(rt: &impl Abort, state: &ShellState, case: &Case) -> bool {
    counts(state) == case.counts
        && state.taken().bound() == case.bound
        && !state.is_broken()
        && are_inside(rt, state, case.inside)
        && has_ended(rt, state, case.lines)
}

// Returns whether a state goes through the steps of a case, and is then as the case expects.
fn goes_through(rt: &impl Abort, state: &mut ShellState, case: &Case) -> bool
    requires { state.old.horizon ≡ case.now.horizon }
{
    assert!(rt; 1 <= case.most);
    let played = play(state, case.horizon, case.most, case.steps);
    played.expect(rt, "memory") && is_left(rt, state, case)
}

// Returns whether a state of the case's kind does and becomes what the case expects.
fn is_as_said(rt: &impl Abort, alloc: Global, case: &Case) -> bool {
    assert!(rt; case.horizon <= HOUR);
    goes_through(rt, &mut state_of(rt, alloc, case.kind, case.horizon), case)
}

static CASES: [Case; 4] = [
    Case {
        name: "a direction that passes",
        kind: Kind::Pass,
        horizon: 100,
        most: 1,
        steps: &[
            Step::Wait(0),
            Step::Feed(What::Packet(5, 1)),
            Step::Give(What::Packet(5, 1)),
            Step::Feed(What::Mark(7)),
            Step::Give(What::Mark(7)),
            Step::Wait(7),
            Step::Feed(What::End),
            Step::Give(What::End),
        ],
        counts: [1, 1, 0],
        inside: &[],
        bound: 7,
        lines: 0,
    },
    Case {
        name: "a delay",
        kind: Kind::Delay(20),
        horizon: 100,
        most: 4,
        steps: &[
            Step::Give(What::Mark(20)),
            Step::Feed(What::Packet(80, 1)),
            Step::Feed(What::Packet(81, 2)),
            Step::Give(What::Packet(100, 1)),
            Step::Give(What::Mark(101)),
            Step::Wait(81),
            Step::Feed(What::End),
            Step::Give(What::End),
        ],
        counts: [2, 1, 0],
        inside: &[2],
        bound: 101,
        lines: 0,
    },
    // The first words of seed 0 and stream 0 are 0.679 and 0.563 of 2^32.
    Case {
        name: "a loss",
        kind: Kind::Loss("0.6", 0, 0),
        horizon: 9,
        most: 4,
        steps: &[
            Step::Feed(What::Packet(4, 1)),
            Step::Give(What::Packet(4, 1)),
            Step::Feed(What::Packet(7, 2)),
            Step::Give(What::Mark(7)),
            Step::Feed(What::Mark(10)),
            Step::Give(What::Mark(10)),
            Step::Wait(10),
            Step::Feed(What::End),
            Step::Give(What::End),
        ],
        counts: [2, 1, 1],
        inside: &[],
        bound: 10,
        lines: 0,
    },
    Case {
        name: "a link",
        kind: Kind::Link(b"5\n5\n9\n", "infinite", ""),
        horizon: 20,
        most: 1,
        steps: &[
            Step::Give(What::Mark(5)),
            Step::Wait(0),
            Step::Log(0),
            Step::Feed(What::Mark(7)),
            Step::Burn(1),
            Step::Log(1),
            Step::Give(What::Mark(9)),
            Step::Log(2),
            Step::Wait(7),
            Step::Feed(What::Packet(9, 1)),
            Step::Log(4),
            Step::Give(What::Mark(14)),
            Step::Feed(What::End),
            Step::Give(What::Packet(14, 1)),
            Step::Give(What::Mark(18)),
            Step::Give(What::End),
        ],
        counts: [1, 1, 0],
        inside: &[],
        bound: 18,
        lines: 8,
    },
];

#[test]
fn states_go_through_their_steps(rt: HostRuntime) {
    for case in &CASES {
        check(&rt, is_as_said(&rt, rt.alloc(), case), case.name);
    }
}

static BEFORE_BREAKING: [Step; 3] = [
    Step::Feed(What::Packet(4, 1)),
    Step::Feed(What::Packet(4, 2)),
    Step::Give(What::Packet(4, 1)),
];

// Returns whether a state that is broken off gives `Broken`, and no packet more.
fn breaks_off(rt: &impl Abort, state: &mut ShellState) -> bool {
    state.break_off();
    state.is_broken()
        && is_open(state.taken().end())
        && gives(state, 4, Taken::Item(Item::Broken)).expect(rt, "memory")
        && state.taken().end() == FlowEnd::Broken
        && state.taken().packets().len() == 1
}

// Returns whether a state goes through the steps, and is then broken off.
fn is_broken_after(rt: &impl Abort, state: &mut ShellState, steps: &[Step]) -> bool
    requires { state.old.horizon ≡ 9 }
{
    play(state, 9, 4, steps).expect(rt, "memory") && breaks_off(rt, state)
}

// Returns whether a state that lets all packets pass goes through the steps, and is then broken off.
fn breaks_after(rt: &impl Abort, alloc: Global, steps: &[Step]) -> bool {
    is_broken_after(rt, &mut state_of(rt, alloc, Kind::Pass, 9), steps)
}

#[test]
fn a_broken_state(rt: HostRuntime) {
    check(
        &rt,
        breaks_after(&rt, rt.alloc(), &BEFORE_BREAKING),
        "a broken state",
    );
}
