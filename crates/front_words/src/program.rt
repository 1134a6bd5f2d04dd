// The programs.
use std::fmt;

/// A program.
#[derive(Clone, Copy, PartialEq, Eq)]
pub enum Program {
    Mm,
    Record,
    Relay,
}

impl Program {
    /// Returns its name.
    pub fn name(self) -> &'static str {
        match self {
            Program::Mm => "mm",
            Program::Record => "mm-record",
            Program::Relay => "mm-relay",
        }
    }
}

impl fmt::Display for Program {
    fn fmt<W: fmt::Write>(&self, f: &mut fmt::Formatter<W>) -> fmt::Result {
        f.write_str(self.name())
    }
}
