// Tests of calls of the system that fail once, and would succeed if they were made again.
ghost use Rattle.std.specs.Prelude.{◌≡◌, IfOk};

use mm_base::{call_again, read_once, write_once};
use std::cell::Cell;
use std::io::{self, ErrorKind, Read, Write};

// A reader and writer whose first call fails. Its further calls do nothing and succeed.
#[derive(Drop)]
struct FailsOnce {
    has_failed: bool,
}

impl FailsOnce {
    // Fails at the first call, and then returns `count`.
    fn call(&mut self, count: usize) -> io::Result<usize>
        ensures { IfOk result (λ n. n ≡ count) }
    {
        if self.has_failed {
            return Ok(count);
        }
        self.has_failed = true;
        Err(io::Error::from(ErrorKind::Other))
    }
}

impl Read for FailsOnce {
    fn read(&mut self, _buf: &mut [u8]) -> io::Result<usize> {
        self.call(0)
    }
}

impl Write for FailsOnce {
    fn write(&mut self, piece: &[u8]) -> io::Result<usize> {
        self.call(piece.len())
    }

    fn flush(&mut self) -> io::Result<()> {
        Ok(())
    }
}

// Returns whether a call that fails once is made again.
fn is_called_again() -> bool {
    let calls = Cell::new(0u8);
    let answer = call_again(|| {
        calls.set(calls.get().wrapping_add(1));
        match calls.get() {
            1 => Err(io::Error::from(ErrorKind::Other)),
            _ => Ok(()),
        }
    });
    answer.is_ok()
}

// A fault that no signal caused is returned, and the call isn't made again.
#[test]
fn calls_that_fail_are_not_made_again(rt: HostRuntime) {
    let mut reader = FailsOnce { has_failed: false };
    let mut writer = FailsOnce { has_failed: false };
    assert!(rt; read_once(&mut reader, &mut [0u8; 1]).is_err());
    assert!(rt; write_once(&mut writer, b"a").is_err());
    assert!(rt; !is_called_again());
}
