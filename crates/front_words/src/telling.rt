// Saying why a command line isn't done.
use crate::asked::asks_version;
use crate::causes::Explanation;
use crate::commit::Commit;
use crate::empties::EmptySchedule;
use crate::hints::Hint;
use crate::inputs::Inputs;
use crate::places::Place;
use crate::quotes::Quote;
use crate::strange_words::StrangeWord;
use crate::{Program, Reason};
use command_ends::{Cause, Ending};
use mm_base::{EndError, Sink, send_all};
use piped_disk::Pipes;
use std::alloc::{Alloc, Global};
use std::fmt;
use std::fs::File;
use std::rt::Files;

// The line of a reason.
#[derive(Drop)]
struct ReasonLine<'a> {
    program: Program,
    reason: Reason<'a>,
}

impl fmt::Display for ReasonLine<'_> {
    fn fmt<W: fmt::Write>(&self, f: &mut fmt::Formatter<W>) -> fmt::Result {
        writeln!(f, "{}: {}", self.program, self.reason)
    }
}

// Writes that a program is out of memory.
fn say_memory<O: Sink>(program: Program, told: &mut O) -> Result<(), EndError> {
    send_all(told, program.name().as_bytes())?;
    send_all(told, b": out of memory\n")
}

// Writes a text at once, or that the program is out of memory if there is none for it. What can't be written isn't.
pub(crate) fn say<O: Sink, T: fmt::Display>(
    alloc: Global,
    program: Program,
    text: &T,
    told: &mut O,
) {
    let _ = match text.to_string(alloc) {
        Ok(text) => send_all(told, text.as_bytes()),
        Err(_) => say_memory(program, told),
    };
}

/// Says on `told`, which is the standard error, why the outside refused a call. What can't be said isn't.
pub fn tell_reason<O: Sink>(alloc: Global, program: Program, reason: Reason<'_>, told: &mut O) {
    say(alloc, program, &ReasonLine { program, reason }, told);
}

// Says which schedule of a command line that is done is empty, if one is.
fn tell_empty<R: Files<File = File> + Alloc<A = Global> + Clone + Drop, O: Sink>(
    rt: &R,
    words: &[String],
    pipes: &Pipes,
    told: &mut O,
) {
    if let Some(mut inputs) = Inputs::new(rt, pipes)
        && let Some(empty) = EmptySchedule::read(rt.alloc(), words, &mut inputs)
    {
        say(rt.alloc(), Program::Mm, &empty, told);
    }
}

// Says what stands under the name of an input that can't be read, if it is no regular file.
fn tell_place<R: Files<File = File> + Alloc<A = Global> + Clone + Drop, O: Sink>(
    rt: &R,
    program: Program,
    cause: &Cause,
    reason: Reason<'_>,
    told: &mut O,
) {
    if let (Cause::ReadFault(name), Reason::NotRegular) = (cause, reason)
        && let Some(place) = Place::look(rt, name.as_str())
    {
        say(rt.alloc(), program, &place, told);
    }
}

// Says for which line an input was refused, and what it is if it is none of what is wanted.
fn tell_input<R: Files<File = File> + Alloc<A = Global> + Clone + Drop, O: Sink>(
    rt: &R,
    program: Program,
    words: &[String],
    cause: &Cause,
    pipes: &Pipes,
    told: &mut O,
) {
    let Some(mut inputs) = Inputs::new(rt, pipes) else {
        return;
    };
    if let Some(quote) = Quote::read(words, cause, &mut inputs) {
        say(rt.alloc(), program, &quote, told);
    }
    if let Some(hint) = Hint::read(words, cause, &mut inputs) {
        say(rt.alloc(), program, &hint, told);
    }
}

// Says the commit if the words ask for the version, or which word is no text.
fn tell_words<R: Files<File = File> + Alloc<A = Global> + Clone + Drop, O: Sink>(
    rt: &R,
    program: Program,
    words: &[String],
    told: &mut O,
) {
    if asks_version(words)
        && let Some(commit) = Commit::read(rt)
    {
        say(rt.alloc(), program, &commit, told);
    }
    if words.is_empty()
        && let Some(word) = StrangeWord::read(rt, program)
    {
        say(rt.alloc(), program, &word, told);
    }
}

/// Says on `told`, which is the standard error, why the command line of these words isn't done: the cause in words,
/// with what was typed and where; then `reason`, for which the outside refused the call; then the line for which an
/// input was refused, and what that is if it is something else. Words that ask for it get the usage, or the version and
/// the commit of the program. If all is done, only an empty schedule is named; what can't be said isn't. `pipes`
/// are the inputs that were pipes.
pub fn tell<R: Files<File = File> + Alloc<A = Global> + Clone + Drop, O: Sink>(
    rt: &R,
    program: Program,
    words: &[String],
    ending: &Ending,
    reason: Option<Reason<'_>>,
    pipes: &Pipes,
    told: &mut O,
) {
    let Err(cause) = &ending.answer else {
        if let Program::Mm = program {
            tell_empty(rt, words, pipes, told);
        }
        return;
    };
    let explanation = Explanation {
        program,
        words,
        cause,
        reason,
    };
    say(rt.alloc(), program, &explanation, told);
    if let Some(reason) = reason {
        tell_reason(rt.alloc(), program, reason, told);
        tell_place(rt, program, cause, reason, told);
    }
    tell_words(rt, program, words, told);
    tell_input(rt, program, words, cause, pipes, told);
}
