// The ends of a client's output and of its site's, each of which waits for the other.
ghost use Rattle.std.specs.Prelude.{◌≡◌, ◌==◌, None, false, IfOk, IsErrOf};
ghost use Rattle.mm_base.specs.Link.{IsFresh};
ghost use Rattle.mm_base.specs.MemLink.{mem_link_view};

use super::status_of;
use crate::links::{REQUEST, RESPONSE};
use mm_base::{EndError, Link, Listened, MemLink, Port};
use record_proxy::{Dialer, PortsAsked};
use std::alloc::Global;
use std::marker::Sync;
use std::sync::Wait;
use std::sync::atomic::{AtomicU64, Ordering};
use std::thread::{self, Threads};
use test_outside::TestOutside;
use text_base::Bytes;

// How often an end looks for the other one.
const LOOKS: u32 = 10_000_000;

// How many outputs were ended, and how many of these waited in vain for the other one.
#[derive(Drop)]
pub struct Ends {
    ended: AtomicU64,
    in_vain: AtomicU64,
}

impl Ends {
    fn wait_for_both(&self) {
        self.ended.fetch_add(1, Ordering::SeqCst);
        for _ in 0..LOOKS {
            if self.ended.load(Ordering::SeqCst) >= 2 {
                return;
            }
            thread::yield_now();
        }
        self.in_vain.fetch_add(1, Ordering::SeqCst);
    }
}

// A link in memory, the end of whose output waits for another's.
#[derive(Drop)]
pub struct Parting<'a> {
    link: MemLink,
    ends: &'a Ends,
}

impl Link for Parting<'_> {
    ghost view = { λ p. mem_link_view p.link };

    fn read(&mut self, buf: &mut [u8]) -> Result<usize, EndError> {
        self.link.read(buf)
    }

    fn write(&mut self, piece: &[u8]) -> Result<usize, EndError> {
        self.link.write(piece)
    }

    fn close_output(&mut self) {
        self.link.close_output();
        self.ends.wait_for_both();
    }
}

// One side of a pair: who says this, and comes once.
#[derive(Drop)]
pub struct Side<'a> {
    alloc: Global,
    says: &'static str,
    ends: &'a Ends,
    given: u64,
    listened: Listened,
    asked: PortsAsked,
}

impl<'a> Side<'a> {
    fn new(alloc: Global, says: &'static str, ends: &'a Ends) -> Self {
        Side {
            alloc,
            says,
            ends,
            given: 0,
            listened: Listened::never(),
            asked: PortsAsked::Never,
        }
    }

    // A connection on which no call was made. No memory is all that it may lack.
    fn fresh(&self) -> Result<Parting<'a>, EndError>
        ensures fresh { IfOk result (λ p. IsFresh (mem_link_view p.link)) }
        ensures only { ¬ (IsErrOf result EndError.Failed) }
    {
        let input = Bytes::from_slice(self.alloc, self.says.as_bytes())?;
        Ok(Parting {
            link: MemLink::new(self.alloc, input, 65_536, Vec::new(self.alloc)),
            ends: self.ends,
        })
    }
}

impl<'a> Port for Side<'a> {
    type Conn = Parting<'a>;

    ghost view = { λ p. record {
      listened = p.listened;
      finished = None;
      accepted = p.given;
      drained = p.given == 1;
      faults = 0;
      never_fails = false;
    } };

    fn listen(&mut self, number: u16) -> Result<(), EndError> {
        self.listened.listen(number);
        Ok(())
    }

    fn accept(&mut self) -> Result<Option<Parting<'a>>, EndError> {
        if self.given == 1 {
            return Ok(None);
        }
        if self.given > 1 {
            return Err(EndError::OutOfMemory);
        }
        let conn = self.fresh()?;
        self.given += 1;
        Ok(Some(conn))
    }

    fn finish(&mut self, _conn: Parting<'a>) -> Result<(), EndError> {
        Ok(())
    }
}

impl<'a> Dialer for Side<'a> {
    type Conn = Parting<'a>;

    ghost view = { λ d. record { asked = d.asked; finished = None; dialed = d.given; faults = 0 } };

    fn dial(&mut self, number: u16) -> Result<Parting<'a>, EndError> {
        self.asked.ask(number);
        if self.given == u64::MAX {
            return Err(EndError::OutOfMemory);
        }
        let conn = self.fresh()?;
        self.given += 1;
        Ok(conn)
    }

    fn finish(&mut self, _conn: Parting<'a>) -> Result<(), EndError> {
        Ok(())
    }
}

// Whether a client and its site are ended beside each other by these words.
fn part_beside<R: Threads + Wait + Sync>(rt: &R, alloc: Global, words: &str) -> bool {
    let Ok(mut outside) = TestOutside::new(alloc, &[], &[], &[]) else {
        return false;
    };
    let ends = Ends {
        ended: AtomicU64::new(0),
        in_vain: AtomicU64::new(0),
    };
    let mut port = Side::new(alloc, REQUEST, &ends);
    let mut dialer = Side::new(alloc, RESPONSE, &ends);
    status_of(rt, alloc, words, &mut outside, &mut port, &mut dialer) == Ok(0)
        && outside.is_left("closed 1 bad 0 broken 0 full 0\n", &[])
        && ends.in_vain.load(Ordering::SeqCst) == 0
}

#[test]
fn neither_side_waits_for_the_end_of_the_other(rt: HostRuntime) {
    let words = "--port 80 --to 8080 --connections 1 --out s";
    assert!(rt; part_beside(&rt, rt.alloc(), words));
    let words = "--port 80 --to 8080 --connections 1 --out s --until-ended";
    assert!(rt; part_beside(&rt, rt.alloc(), words));
}
