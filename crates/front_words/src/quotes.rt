// The line for which an input was refused.
use crate::inputs::Inputs;
use crate::roles::FileRole;
use crate::rules::is_behind;
use command_ends::{Cause, Refusal};
use std::alloc::{Alloc, Global};
use std::fmt;
use std::fs::File;
use std::rt::Files;
use text_base::{Bytes, Lines};

// How many bytes a line has at most that is shown.
const MOST_SHOWN: usize = 60;

// Bytes as a terminal may show them.
#[derive(Drop)]
struct Shown<'a>(&'a [u8]);

impl fmt::Display for Shown<'_> {
    fn fmt<W: fmt::Write>(&self, f: &mut fmt::Formatter<W>) -> fmt::Result {
        for byte in self.0 {
            match *byte {
                b'\t' => write!(f, "\\t")?,
                b'\r' => write!(f, "\\r")?,
                b'\\' => write!(f, "\\\\")?,
                byte @ 32..=126 => f.write_char(char::from(byte))?,
                byte => write!(f, "\\x{byte:02x}")?,
            }
        }
        Ok(())
    }
}

// A line with its number, if it isn't too long.
#[derive(Drop)]
struct NumberedLine<'a> {
    number: u64,
    line: Option<&'a [u8]>,
}

impl fmt::Display for NumberedLine<'_> {
    fn fmt<W: fmt::Write>(&self, f: &mut fmt::Formatter<W>) -> fmt::Result {
        match self.line {
            Some(line) if line.len() <= MOST_SHOWN => {
                writeln!(f, "  {} | {}", self.number, Shown(line))
            }
            _ => Ok(()),
        }
    }
}

/// The line for which an input was refused.
#[derive(Drop)]
pub(crate) struct Quote {
    text: Bytes,
    /// Its number, from 1.
    number: u64,
    /// Whether its moment is before that of the line above.
    is_behind: bool,
}

impl Quote {
    /// Returns the line for which the command line of these words isn't done, if the cause names one; the file is read
    /// anew. There is none if it can't be read.
    pub(crate) fn read<R: Files<File = File> + Alloc<A = Global> + Clone + Drop>(
        words: &[String],
        cause: &Cause,
        inputs: &mut Inputs<'_, R>,
    ) -> Option<Self> {
        let Cause::Refused(
            Refusal::BadInput {
                name,
                number,
                place,
            },
        ) = cause
        else {
            return None;
        };
        let name = name.as_str();
        let role = FileRole::of_refused(name, *number, *place, words);
        if *place == 0 || !role.has_lines() {
            return None;
        }
        Some(Quote {
            text: inputs.load(name)?,
            number: *place,
            is_behind: is_behind(role, *number),
        })
    }

    // Returns the line of this number with it.
    fn line(&self, number: u64) -> NumberedLine<'_> {
        let line = line_at(self.text.as_slice(), number);
        NumberedLine { number, line }
    }
}

// Returns the line of this number, counted from 1.
fn line_at(text: &[u8], number: u64) -> Option<&[u8]> {
    let mut before = number.saturating_sub(1);
    for line in Lines::new(text) {
        if before == 0 {
            return Some(line);
        }
        before -= 1;
    }
    None
}

impl fmt::Display for Quote {
    fn fmt<W: fmt::Write>(&self, f: &mut fmt::Formatter<W>) -> fmt::Result {
        if self.is_behind {
            write!(f, "{}", self.line(self.number.saturating_sub(1)))?;
        }
        let refused = self.line(self.number);
        write!(f, "{refused}")?;
        match refused.line {
            Some([.., b'\r']) => {
                writeln!(
                    f,
                    "  the line ends in a carriage return; tr -d '\\r' takes them away"
                )
            }
            _ => Ok(()),
        }
    }
}
