//! Tests of calls of the system that a signal interrupts.
use crate::halting::Halting;
use mm_base::{call_again, read_once, write_once};
use std::cell::Cell;
use std::io::{self, ErrorKind};

// Returns what a call gives that is interrupted twice.
fn third_call() -> io::Result<&'static str> {
    let calls = Cell::new(0u8);
    call_again(|| {
        calls.set(calls.get().wrapping_add(1));
        match calls.get() {
            3 => Ok("third"),
            _ => Err(io::Error::from(ErrorKind::Interrupted)),
        }
    })
}

// Returns whether two bytes are read and two of three written, each at the first call that isn't interrupted.
fn is_called_again(halting: &mut Halting) -> io::Result<bool> {
    let read = read_once(halting, &mut [0u8; 4])?;
    let written = write_once(halting, b"abc")?;
    Ok(read == 2 && written == 2 && halting.bytes.as_slice() == [1, 2, b'a', b'b'].as_slice())
}

#[test]
fn calls_that_are_interrupted_are_made_again(rt: HostRuntime) {
    let bytes = [1, 2].to_vec(rt.alloc()).expect(&rt, "memory");
    let mut halting = Halting::new(bytes);
    assert!(rt; is_called_again(&mut halting).expect(&rt, "no call fails"));
    assert!(rt; third_call().expect(&rt, "no call fails") == "third");
}
