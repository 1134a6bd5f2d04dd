// Words of the command line that are no text.
use crate::Program;
use std::alloc::{Alloc, Global};
use std::rt::Files;
use std::str::from_utf8;
use std::{fmt, fs};

// Where the system has the words of this program, each ended by a byte 0.
const WORDS: &str = "/proc/self/cmdline";

/// The first word of the command line that isn't UTF-8.
#[derive(Drop)]
pub(crate) struct StrangeWord {
    program: Program,
    /// Its number, from 1; the program's name isn't counted.
    number: usize,
}

impl StrangeWord {
    /// Returns the first word of this program's command line that isn't UTF-8, if there is one.
    pub(crate) fn read<R: Files + Alloc<A = Global>>(rt: &R, program: Program) -> Option<Self> {
        let words = fs::read(rt, WORDS).ok()?;
        for (number, word) in words.split(|byte| *byte == 0).enumerate() {
            if number > 0 && from_utf8(word).is_err() {
                return Some(StrangeWord { program, number });
            }
        }
        None
    }
}

impl fmt::Display for StrangeWord {
    fn fmt<W: fmt::Write>(&self, f: &mut fmt::Formatter<W>) -> fmt::Result {
        writeln!(
            f,
            "{}: word {} isn't valid UTF-8",
            self.program, self.number
        )
    }
}
