// The warning that a program is its own site or server.
use crate::Program;
use crate::telling::say;
use mm_base::Sink;
use option_words::{Command, read_given, read_port, read_split};
use std::alloc::Global;
use std::fmt;

// The places of both ports in the tables of options, counted from 0.
const RECORD_PORTS: (usize, usize) = (0, 1);

const RELAY_PORTS: (usize, usize) = (1, 2);

// The options of a program that name its own port and the one that it sends to, and that port.
#[derive(Drop)]
struct OwnPort {
    program: Program,
    own: &'static str,
    port: u16,
}

impl fmt::Display for OwnPort {
    fn fmt<W: fmt::Write>(&self, f: &mut fmt::Formatter<W>) -> fmt::Result {
        let OwnPort { program, own, port } = self;
        writeln!(
            f,
            "{program}: {own} and --to are both {port}, so what it sends there comes back to itself"
        )
    }
}

// Returns the port that both options name, if they name the same.
fn same_port(given: &[Option<&str>], places: (usize, usize)) -> Option<u16> {
    let own = read_port((*given.get(places.0)?)?)?;
    let to = read_port((*given.get(places.1)?)?)?;
    if own == to { Some(own) } else { None }
}

// Returns the port that a recording listens at and dials, if that is one.
fn recorded_port(alloc: Global, words: &[String]) -> Option<u16> {
    let given = read_given(alloc, Command::Proxy, words).ok()??;
    same_port(given.as_slice(), RECORD_PORTS)
}

// Returns the port that a relay listens at and sends to, if that is one.
fn relayed_port(alloc: Global, words: &[String]) -> Option<u16> {
    let split = read_split(alloc, Command::Relay, words).ok()??;
    same_port(split.given.as_slice(), RELAY_PORTS)
}

/// Says on `told`, which is the standard error, that `mm-record` or `mm-relay` sends to the port at which it listens, if
/// these words ask for that. What can't be said isn't.
pub fn warn_of_own_port<O: Sink>(alloc: Global, program: Program, words: &[String], told: &mut O) {
    let (own, port) = match program {
        Program::Mm => return,
        Program::Record => ("--port", recorded_port(alloc, words)),
        Program::Relay => ("--listen", relayed_port(alloc, words)),
    };
    if let Some(port) = port {
        say(alloc, program, &OwnPort { program, own, port }, told);
    }
}
