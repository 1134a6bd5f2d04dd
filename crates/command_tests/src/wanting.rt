// Command lines over a disk without memory, which notes how often it is asked.
ghost use Rattle.std.specs.Prelude.{◌≡◌, ◌^◌, ◌-◌, None, false};

use mm_base::{Disk, DiskError, MemPort, MemSink, NoPace};
use mm_program::mm_main;
use std::alloc::Global;
use std::marker::Sync;
use std::sync::Wait;
use std::thread::Threads;
use test_outside::words_of;
use text_base::OutOfMemory;

// A disk that finds no memory for any call, and how often it was asked.
#[derive(Drop)]
struct FullDisk {
    calls: u64,
}

impl FullDisk {
    fn refuse(&mut self) -> DiskError
        ensures { result ≡ DiskError.OutOfMemory }
    {
        self.calls = self.calls.saturating_add(1);
        DiskError::OutOfMemory
    }
}

impl Disk for FullDisk {
    ghost view = { λ _. record {
      files = None;
      reads = 2 ^ 64 - 1;
      read_faults = 0;
      last_fault = None;
      write_faults = 0;
      absences = 0;
      never_fails = false;
    } };

    fn size(&mut self, _name: &str) -> Result<u64, DiskError> {
        Err(self.refuse())
    }

    fn read_at(&mut self, _name: &str, _at: u64, _buf: &mut [u8]) -> Result<usize, DiskError> {
        Err(self.refuse())
    }

    fn create(&mut self, _name: &str) -> Result<(), DiskError> {
        Err(self.refuse())
    }

    fn append(&mut self, _name: &str, _piece: &[u8]) -> Result<usize, DiskError> {
        Err(self.refuse())
    }
}

// The status of a command line over a disk.
fn status_of<R: Threads + Wait + Sync>(
    rt: &R,
    alloc: Global,
    words: &[String],
    disk: &mut FullDisk,
    out: &mut MemSink,
) -> u8 {
    let mut port = MemPort::new(alloc, Vec::new(alloc), Vec::new(alloc));
    mm_main(rt, alloc, words, disk, out, &mut port, &NoPace)
}

// Whether a command line says that memory is wanting.
fn says_so<R: Threads + Wait + Sync>(
    rt: &R,
    alloc: Global,
    line: &str,
) -> Result<bool, OutOfMemory> {
    let words = words_of(alloc, line)?;
    let mut out = MemSink::new(alloc, Vec::new(alloc));
    let mut disk = FullDisk { calls: 0 };
    let status = status_of(rt, alloc, &words, &mut disk, &mut out);
    Ok(status == 9 && out.written() == b"mm: memory\n".as_slice())
}

static LINES: [&str; 7] = [
    "run --until 100 --schedule s --out f -- mm-delay 20",
    "run --until 100 --schedule s --out f --plain -- mm-delay 20",
    "merge --until 100 --senders m --out f -- mm-delay 20",
    "report --log l",
    "record --client c --server r --out f",
    "match --store k --request c",
    "replay --store k --port 80 --connections 1",
];

#[test]
fn want_of_memory_has_a_line(rt: HostRuntime) {
    for line in &LINES {
        assert!(rt;
            says_so(&rt, rt.alloc(), line).expect(&rt, "memory"),
            "at {line}"
        );
    }
}

// The status of a command line, and how often it asks its disk.
fn asks<R: Threads + Wait + Sync>(
    rt: &R,
    alloc: Global,
    line: &str,
) -> Result<(u8, u64), OutOfMemory> {
    let words = words_of(alloc, line)?;
    let mut out = MemSink::new(alloc, Vec::new(alloc));
    let mut disk = FullDisk { calls: 0 };
    let status = status_of(rt, alloc, &words, &mut disk, &mut out);
    Ok((status, disk.calls))
}

// Lines that are refused by their words, and one that has no file.
static FILELESS: [(&str, u8); 14] = [
    (
        "run --until 100 --schedule s --out f --plain --order o -- mm-delay 20",
        2,
    ),
    ("run --until 100 --schedule s --out f -- mm-delay", 2),
    ("run --until 100 --schedule s --out s -- mm-delay 20", 2),
    ("run --until 3600001 --schedule s --out f -- mm-delay 20", 5),
    ("merge --until 100 --senders m --out m -- mm-delay 20", 2),
    (
        "merge --until 3600001 --senders m --out f -- mm-delay 20",
        5,
    ),
    ("report --log", 2),
    ("record --client c --server r --out c", 2),
    ("match --store k", 2),
    ("migrate --store k --out k", 2),
    ("replay --store k --port 0 --connections 1", 2),
    ("make --number 1", 2),
    ("make --number 1 --packets 3", 0),
    ("unknown", 2),
];

#[test]
fn words_that_are_refused_ask_for_no_file(rt: HostRuntime) {
    for &(line, status) in &FILELESS {
        let asked = asks(&rt, rt.alloc(), line).expect(&rt, "memory");
        assert!(rt; asked == (status, 0), "at {line}: {asked:?}");
    }
}
