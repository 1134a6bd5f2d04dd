// What a proxy does beside its bytes: the ports that it listens at and dials, many clients, and the end of each output
// before its connection is finished.
ghost use Rattle.std.specs.Prelude.{◌≡◌, ◌==◌, None, false, IfOk, IsErrOf};
ghost use Rattle.mm_base.specs.Link.{IsFresh};
ghost use Rattle.mm_base.specs.MemLink.{mem_link_view};

use super::status_of;
use crate::links::{REQUEST, RESPONSE};
use mm_base::{EndError, Link, Listened, MemLink, Port};
use record_proxy::{Dialer, PortsAsked};
use std::alloc::Global;
use std::marker::Sync;
use std::sync::Wait;
use std::thread::Threads;
use test_outside::TestOutside;
use text_base::Bytes;

// How often an output was ended, and how many calls came after that.
#[derive(Clone, Copy)]
struct Calls {
    ends: u32,
    late: u32,
}

impl Calls {
    // A call that takes or gives bytes.
    fn note(&mut self) {
        if self.ends > 0 {
            self.late = self.late.saturating_add(1);
        }
    }

    fn end(&mut self) {
        self.ends = self.ends.saturating_add(1);
    }
}

// A link in memory that counts the ends of its output, and the calls after that.
#[derive(Drop)]
pub struct Watched {
    link: MemLink,
    calls: Calls,
}

impl Watched {
    // Whether all was said, and then the output was ended once.
    fn is_well(&self, said: &str) -> bool {
        self.calls.ends == 1 && self.calls.late == 0 && self.link.given() == said.as_bytes()
    }
}

impl Link for Watched {
    ghost view = { λ w. mem_link_view w.link };

    fn read(&mut self, buf: &mut [u8]) -> Result<usize, EndError> {
        self.calls.note();
        self.link.read(buf)
    }

    fn write(&mut self, piece: &[u8]) -> Result<usize, EndError> {
        self.calls.note();
        self.link.write(piece)
    }

    fn close_output(&mut self) {
        self.calls.end();
        self.link.close_output();
    }
}

// So many connections that say this, each used well when it was finished, at a port of this number.
#[derive(Clone, Copy)]
pub struct WatchedNet {
    alloc: Global,
    says: &'static str,
    hears: &'static str,
    left: u64,
    given: u64,
    well: u32,
    listened: Listened,
    asked: PortsAsked,
    number: u16,
}

impl WatchedNet {
    pub fn new(alloc: Global, says: &'static str, hears: &'static str, left: u64) -> Self {
        WatchedNet {
            alloc,
            says,
            hears,
            left,
            given: 0,
            well: 0,
            listened: Listened::never(),
            asked: PortsAsked::Never,
            number: 0,
        }
    }

    // A connection on which no call was made. No memory is all that it may lack.
    fn fresh(&self) -> Result<Watched, EndError>
        ensures fresh { IfOk result (λ w. IsFresh (mem_link_view w.link)) }
        ensures only { ¬ (IsErrOf result EndError.Failed) }
    {
        let input = Bytes::from_slice(self.alloc, self.says.as_bytes())?;
        Ok(Watched {
            link: MemLink::new(self.alloc, input, 65_536, Vec::new(self.alloc)),
            calls: Calls { ends: 0, late: 0 },
        })
    }

    // Notes whether a connection was used well, and lets it go.
    fn note_end(&mut self, conn: Watched)
        ensures left { self.new.left ≡ self.old.left }
        ensures given { self.new.given ≡ self.old.given }
        ensures listened { self.new.listened ≡ self.old.listened }
        ensures asked { self.new.asked ≡ self.old.asked }
    {
        if conn.is_well(self.hears) {
            self.well = self.well.saturating_add(1);
        }
    }
}

impl Port for WatchedNet {
    type Conn = Watched;

    ghost view = { λ p. record {
      listened = p.listened;
      finished = None;
      accepted = p.given;
      drained = p.left == 0;
      faults = 0;
      never_fails = false;
    } };

    fn listen(&mut self, number: u16) -> Result<(), EndError> {
        self.listened.listen(number);
        self.number = number;
        Ok(())
    }

    fn accept(&mut self) -> Result<Option<Watched>, EndError> {
        if self.left == 0 {
            return Ok(None);
        }
        if self.given == u64::MAX {
            return Err(EndError::OutOfMemory);
        }
        let conn = self.fresh()?;
        self.left -= 1;
        self.given += 1;
        Ok(Some(conn))
    }

    fn finish(&mut self, conn: Watched) -> Result<(), EndError> {
        self.note_end(conn);
        Ok(())
    }
}

impl Dialer for WatchedNet {
    type Conn = Watched;

    ghost view = { λ d. record { asked = d.asked; finished = None; dialed = d.given; faults = 0 } };

    fn dial(&mut self, number: u16) -> Result<Watched, EndError> {
        self.number = number;
        self.asked.ask(number);
        if self.given == u64::MAX {
            return Err(EndError::OutOfMemory);
        }
        let conn = self.fresh()?;
        self.given += 1;
        Ok(conn)
    }

    fn finish(&mut self, conn: Watched) -> Result<(), EndError> {
        self.note_end(conn);
        Ok(())
    }
}

// Whether a net was used at the port of this number, has `left` connections left, and ended each of 64 well.
fn is_used(net: &WatchedNet, number: u16, left: u64) -> bool {
    net.number == number && net.left == left && net.given == 64 && net.well == 64
}

// How many bytes a file has.
pub fn length_of(outside: &TestOutside, name: &str) -> Option<usize> {
    match outside.disk.file(name) {
        Some(text) => Some(text.len()),
        None => None,
    }
}

// Whether a program that serves 64 clients ends well, at its ports, where 65 wait.
fn serves_many<R: Threads + Wait + Sync>(rt: &R, alloc: Global, outside: &mut TestOutside) -> bool {
    let words = "--port 80 --to 8080 --connections 64 --out s";
    let mut port = WatchedNet::new(alloc, REQUEST, RESPONSE, 65);
    let mut dialer = WatchedNet::new(alloc, RESPONSE, REQUEST, 0);
    status_of(rt, alloc, words, outside, &mut port, &mut dialer) == Ok(0)
        && is_used(&port, 80, 1)
        && is_used(&dialer, 8080, 0)
}

// Whether such a program leaves their records.
fn records_many<R: Threads + Wait + Sync>(
    rt: &R,
    alloc: Global,
    outside: &mut TestOutside,
) -> bool {
    serves_many(rt, alloc, outside)
        && outside.is_left("closed 64 bad 0 broken 0 full 0\n", &[])
        && length_of(outside, "s") == Some(10 + 64 * 91)
}

#[test]
fn each_of_many_clients_is_served_and_ended(rt: HostRuntime) {
    let mut outside = TestOutside::new(rt.alloc(), &[], &[], &[]).expect(&rt, "memory");
    assert!(rt; records_many(&rt, rt.alloc(), &mut outside));
}
