// A schedule of a run that is done and that has no packet.
use crate::Program;
use crate::inputs::Inputs;
use crate::roles::FileRole;
use crate::shells::option_value;
use option_words::Command;
use std::alloc::{Alloc, Global};
use std::fmt;
use std::fs::File;
use std::rt::Files;
use std::str::from_utf8;
use text_base::{Lines, Text};

/// A schedule that is empty.
#[derive(Drop)]
pub(crate) struct EmptySchedule {
    name: Text,
    role: FileRole,
}

// Returns the first empty schedule of a list of senders.
fn read_listed<R: Files<File = File> + Alloc<A = Global> + Clone + Drop>(
    alloc: Global,
    list: &str,
    inputs: &mut Inputs<'_, R>,
) -> Option<Text> {
    let list = inputs.load(list)?;
    for line in Lines::new(list.as_slice()) {
        let name = from_utf8(line).ok()?;
        if inputs.is_empty(name) {
            return Text::from_text(alloc, name).ok();
        }
    }
    None
}

// Returns whether the words are those of a command.
fn names(command: Command, words: &[String]) -> bool {
    match words.split_first() {
        Some((word, _)) => word.as_str() == command.name(),
        None => false,
    }
}

impl EmptySchedule {
    /// Returns the first empty schedule that these words name.
    pub(crate) fn read<R: Files<File = File> + Alloc<A = Global> + Clone + Drop>(
        alloc: Global,
        words: &[String],
        inputs: &mut Inputs<'_, R>,
    ) -> Option<Self> {
        if names(Command::Run, words) {
            let name = option_value("--schedule", words)?;
            if !inputs.is_empty(name) {
                return None;
            }
            let name = Text::from_text(alloc, name).ok()?;
            return Some(EmptySchedule {
                name,
                role: FileRole::Schedule,
            });
        }
        if !names(Command::Merge, words) {
            return None;
        }
        let list = option_value("--senders", words)?;
        let name = read_listed(alloc, list, inputs)?;
        Some(EmptySchedule {
            name,
            role: FileRole::OfSender,
        })
    }
}

impl fmt::Display for EmptySchedule {
    fn fmt<W: fmt::Write>(&self, f: &mut fmt::Formatter<W>) -> fmt::Result {
        let program = Program::Mm;
        writeln!(
            f,
            "{program}: {}: {} is empty",
            self.name.as_str(),
            self.role
        )
    }
}
