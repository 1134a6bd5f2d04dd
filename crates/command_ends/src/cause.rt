// Why a command line isn't done.
ghost use Rattle.std.specs.Prelude.{◌≡◌};
ghost use Rattle.command_ends.specs.Causes.{status_of};
ghost use Rattle.command_ends.specs.declared.cause.Cause.TheVariants as causes;

use option_words::WordFault;
use std::alloc::{AllocError, AllocFailed};
use text_base::{OutOfMemory, Text};

/// What the words of a command line are refused for, or a name.
#[derive(Drop)]
pub enum WordsRefusal {
    /// The words have no job: their first fault.
    Usage(WordFault),
    /// The words of the shells are no nest: the number of their refusal, the word or the shell that it names, or 0,
    /// and the number of the refusal inside it, if it has one.
    Nest {
        number: u32,
        place: u64,
        inner: Option<u32>,
    },
    /// An output has the name of an input, or of an earlier output.
    Name(Text),
}

/// What is more than its limit.
#[derive(Drop)]
pub enum Limit {
    /// The horizon is past an hour.
    Horizon,
    /// The links of a nest have more than 16,000,000 opportunities up to the horizon.
    Opportunities,
    /// The file of this name has more than 67,108,864 bytes.
    File(Text),
    /// The trace of this name has more than 1,000,000 opportunities.
    Lines(Text),
    /// The schedule of this name has more than 1,000,000 packets.
    Packets(Text),
}

/// What words and files are refused for by themselves.
#[derive(Drop)]
pub enum Refusal {
    Words(WordsRefusal),
    /// The file of this name, which is to be read, isn't there.
    Absent(Text),
    /// The file of this name doesn't meet its grammar: the number of the refusal, and the line or the place that it
    /// names, or 0.
    BadInput { name: Text, number: u32, place: u64 },
    Limit(Limit),
}

/// Why a command line isn't done.
#[derive(Drop)]
pub enum Cause {
    Refused(Refusal),
    /// Reading the file of this name failed.
    ReadFault(Text),
    /// Writing the file of this name failed.
    WriteFault(Text),
    /// Writing the text that the command prints failed.
    OutFault,
    /// Listening for connections, or accepting or finishing one, failed.
    NetFault,
    OutOfMemory,
}

impl Refusal {
    // The exit status of the program.
    fn status(&self) -> u8
        ensures { result ≡ status_of (causes.Refused self.now) }
    {
        match self {
            Refusal::Words(_) => 2,
            Refusal::Absent(_) => 3,
            Refusal::BadInput { .. } => 4,
            Refusal::Limit(_) => 5,
        }
    }
}

impl Cause {
    /// The words have no job, for this fault.
    pub fn usage(fault: WordFault) -> Self
        ensures { result ≡ causes.Refused (Refusal.Words (WordsRefusal.Usage tt)) }
    {
        Cause::Refused(Refusal::Words(WordsRefusal::Usage(fault)))
    }

    /// An output has this name, which is taken.
    pub fn taken(name: Text) -> Self
        ensures { result ≡ causes.Refused (Refusal.Words (WordsRefusal.Name name)) }
    {
        Cause::Refused(Refusal::Words(WordsRefusal::Name(name)))
    }

    /// A limit is passed.
    pub fn limit(limit: Limit) -> Self
        ensures { result ≡ causes.Refused (Refusal.Limit limit) }
    {
        Cause::Refused(Refusal::Limit(limit))
    }

    /// The exit status of the program.
    pub fn status(&self) -> u8
        ensures { result ≡ status_of self.now }
    {
        match self {
            Cause::Refused(refusal) => refusal.status(),
            Cause::ReadFault(_) => 6,
            Cause::WriteFault(_) | Cause::OutFault => 7,
            Cause::NetFault => 8,
            Cause::OutOfMemory => 9,
        }
    }
}

impl From<Refusal> for Cause {
    ghost from_gives = { λ refusal cause. cause ≡ causes.Refused refusal };

    fn from(refusal: Refusal) -> Self {
        Cause::Refused(refusal)
    }
}

impl From<OutOfMemory> for Cause {
    ghost from_gives = { λ _ cause. cause ≡ causes.OutOfMemory };

    fn from(_: OutOfMemory) -> Self {
        Cause::OutOfMemory
    }
}

impl From<AllocError> for Cause {
    ghost from_gives = { λ _ cause. cause ≡ causes.OutOfMemory };

    fn from(_: AllocError) -> Self {
        Cause::OutOfMemory
    }
}

impl<T: Drop> From<AllocFailed<T>> for Cause {
    ghost from_gives = { λ _ cause. cause ≡ causes.OutOfMemory };

    fn from(_: AllocFailed<T>) -> Self {
        Cause::OutOfMemory
    }
}
