// Schedules that are read while the nest runs.
ghost use Rattle.std.specs.Prelude.{◌^◌, ◌-◌, None, false};

use super::paced::{Held, Hold, Turns, UP_COLLECTOR};
use super::{answered, concludes, numbered};
use crate::case::{Case, pass};
use mm_base::{Disk, DiskError, NoPace, Role};
use std::alloc::{AllocError, Global};
use std::marker::Sync;
use std::process::Abort;
use std::sync::Wait;
use std::thread::Threads;
use test_outside::{ABSENT, words_of};
use text_base::OutOfMemory;

// So many lines, of which these are refused.
fn many_lines(alloc: Global, count: u32, refused: &[u32]) -> Result<String, AllocError> {
    let mut text = String::new(alloc);
    for line in 1..=count {
        let row = if refused.contains(&line) {
            "x\n"
        } else {
            "0 up 100\n"
        };
        text.push_str(row)?;
    }
    Ok(text)
}

// The fates of 10,000 packets that depart at 1.
fn many_fates(alloc: Global) -> Result<String, AllocError> {
    numbered(alloc, 10_000, " up departed 1\n")
}

const MANY: &str = "--until 1 --schedule s --out f -- mm-delay 1";

// Ten thousand lines, and the fates of their packets.
#[derive(Drop)]
struct Many {
    lines: String,
    fates: String,
}

fn ten_thousand(alloc: Global) -> Result<Many, AllocError> {
    let lines = many_lines(alloc, 10_000, &[])?;
    let fates = many_fates(alloc)?;
    Ok(Many { lines, fates })
}

// How many lines there are, which of them are refused, which call of the disk fails, the status and the line.
type Fault = (u32, &'static [u32], u64, u8, &'static str);

// The calls are a size, and a read for each piece: two of ten thousand lines, three of twenty thousand. A schedule is
// read to its end, and a fault of reading is answered before a refusal.
static FAULTS: [Fault; 6] = [
    (10_000, &[], 3, 6, "mm: read fault s\n"),
    (10_000, &[1, 2], 3, 6, "mm: read fault s\n"),
    (20_000, &[1], 2, 6, "mm: read fault s\n"),
    (20_000, &[1], 3, 6, "mm: read fault s\n"),
    (20_000, &[1], 4, 6, "mm: read fault s\n"),
    (20_000, &[1], 5, 4, "mm: bad input s 1 1\n"),
];

// A run of this schedule is answered as it is stated, and leaves no fates.
fn is_answered<R: Abort + Threads + Wait + Sync>(
    rt: &R,
    alloc: Global,
    schedule: &str,
    fault: &Fault,
) {
    let (_, _, call, status, printed) = *fault;
    let case = Case {
        words: "run --until 1 --schedule s --out f -- mm-delay 1",
        files: &[("s", schedule)],
        fails: (call, 0),
        status,
        printed,
        left: &[("f", ABSENT)],
    };
    pass(rt, alloc, &case);
}

// The same of as many lines as are stated.
fn are_answered<R: Abort + Threads + Wait + Sync>(rt: &R, alloc: Global, fault: &Fault) {
    let text = many_lines(alloc, fault.0, fault.1).expect(rt, "memory");
    is_answered(rt, alloc, text.as_str(), fault);
}

#[test]
fn a_schedule_is_read_to_its_end(rt: HostRuntime) {
    for fault in &FAULTS {
        are_answered(&rt, rt.alloc(), fault);
    }
}

// A disk that tells no files. Each read takes at most `most` bytes of one text, and all that is written is kept. It
// notes the most bytes that a read asks for, and, at its first read past the first piece, whether a packet was
// collected by then. Its counts stand at their last value.
#[derive(Drop)]
struct NotingDisk<'a> {
    text: &'a [u8],
    most: usize,
    written: Vec<u8>,
    turns: &'a Turns,
    asked: usize,
    early: Option<bool>,
}

impl Disk for NotingDisk<'_> {
    ghost view = { λ _. record {
      files = None;
      reads = 2 ^ 64 - 1;
      read_faults = 2 ^ 64 - 1;
      last_fault = None;
      write_faults = 2 ^ 64 - 1;
      absences = 2 ^ 64 - 1;
      never_fails = false;
    } };

    fn size(&mut self, _name: &str) -> Result<u64, DiskError> {
        Ok(self.text.len() as u64)
    }

    fn read_at(&mut self, _name: &str, at: u64, buf: &mut [u8]) -> Result<usize, DiskError> {
        self.asked = self.asked.max(buf.len());
        if at >= 65_536 && self.early.is_none() {
            self.early = Some(self.turns.count(UP_COLLECTOR) > 0);
        }
        let from = at.min(self.text.len() as u64) as usize;
        let rest = &self.text[from..];
        let count = rest.len().min(buf.len()).min(self.most);
        buf[..count].copy_from_slice(&rest[..count]);
        Ok(count)
    }

    fn create(&mut self, _name: &str) -> Result<(), DiskError> {
        Ok(())
    }

    fn append(&mut self, _name: &str, piece: &[u8]) -> Result<usize, DiskError> {
        match self.written.extend_from_slice(piece) {
            Ok(()) => Ok(piece.len()),
            Err(_) => Err(DiskError::OutOfMemory),
        }
    }
}

// The source waits at its 5,000th line until the up collector has a packet.
static MIDDLE_LINE: [Hold; 1] = [Hold {
    role: Role::Source,
    count: 5_000,
    other: UP_COLLECTOR,
    goal: 1,
    stays: false,
}];

// A disk of this text, each of whose reads takes at most `most` bytes.
fn disk_of<'a>(alloc: Global, text: &'a str, most: usize, turns: &'a Turns) -> NotingDisk<'a> {
    NotingDisk {
        text: text.as_bytes(),
        most,
        written: Vec::new(alloc),
        turns,
        asked: 0,
        early: None,
    }
}

// Whether the disk was asked for no more than a piece, a packet was collected before the second piece was read, and
// this was written.
fn was_noted(disk: &NotingDisk<'_>, written: &str) -> bool {
    disk.asked <= 65_536
        && matches!(disk.early, Some(true))
        && disk.written.as_slice() == written.as_bytes()
}

// Whether a run of this schedule at this pace writes these fates, and reads as it should.
fn is_noted<'a, R: Threads + Wait + Sync>(
    rt: &R,
    alloc: Global,
    many: &'a Many,
    pace: &'a Held<'a>,
) -> Result<bool, OutOfMemory> {
    let words = words_of(alloc, MANY)?;
    let mut disk = disk_of(alloc, many.lines.as_str(), usize::MAX, &pace.turns);
    let answer = answered(rt, alloc, &words, &mut disk, pace);
    Ok(concludes(alloc, answer, 0, "") && was_noted(&disk, many.fates.as_str()))
}

// Whether all lines were taken, and the turns were held.
fn were_taken(turns: &Turns) -> bool {
    turns.count(Role::Source) == 10_000 && turns.were_kept()
}

#[test]
fn packets_pass_before_the_schedule_is_read(rt: HostRuntime) {
    let many = ten_thousand(rt.alloc()).expect(&rt, "memory");
    let pace = Held {
        holds: &MIDDLE_LINE,
        turns: Turns::new(),
    };
    assert!(rt; is_noted(&rt, rt.alloc(), &many, &pace).expect(&rt, "memory"));
    assert!(rt; were_taken(&pace.turns));
}

// A schedule, the status, the line and the fates.
type Cut = (&'static str, u8, &'static str, &'static str);

// Whether a schedule, of which each read takes at most `most` bytes, has this status and leaves this line and these
// fates.
fn is_cut<R: Threads + Wait + Sync>(
    rt: &R,
    alloc: Global,
    most: usize,
    cut: &Cut,
) -> Result<bool, OutOfMemory> {
    let turns = Turns::new();
    let words = words_of(alloc, "--until 9 --schedule s --out f -- mm-delay 1")?;
    let mut disk = disk_of(alloc, cut.0, most, &turns);
    let answer = answered(rt, alloc, &words, &mut disk, &NoPace);
    let is_said = concludes(alloc, answer, cut.1, cut.2);
    Ok(is_said && disk.written.as_slice() == cut.3.as_bytes())
}

// Schedules whose last line has no line feed, one that is refused in it, and one whose second line is too long.
static SCHEDULES: [Cut; 3] = [
    (
        "0 up 100\n0000000001 down 0000001504\n5 up 7",
        0,
        "",
        "1 up departed 1\n2 down departed 2\n3 up departed 6\n",
    ),
    ("0 up 100\n5 up 1505", 4, "mm: bad input s 2 2\n", ""),
    (
        "0 up 100\n0000000001 down 00000001504\n0 up 100\n",
        4,
        "mm: bad input s 1 2\n",
        "",
    ),
];

fn are_cut<R: Abort + Threads + Wait + Sync>(rt: &R, alloc: Global, most: usize) {
    for cut in &SCHEDULES {
        let is_said = is_cut(rt, alloc, most, cut).expect(rt, "memory");
        assert!(rt; is_said, "by {most} of {}", cut.0);
    }
}

#[test]
fn lines_are_cut_anywhere(rt: HostRuntime) {
    for most in 1..=27 {
        are_cut(&rt, rt.alloc(), most);
    }
}
