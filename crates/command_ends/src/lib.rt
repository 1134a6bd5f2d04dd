//! How the commands of a program end: what they read and refuse, in order, what they write and print, why they stop,
//! and how that is said. A program that takes words and leaves files stands on it.
#![tactic(auto)]

mod cause;
mod ending;
mod environment;
mod explain;
mod host;
mod inputs;
mod names;
mod outputs;

pub use cause::{Cause, Limit, Refusal, WordsRefusal};
pub use ending::Ending;
pub use environment::{exit_code, read_end, read_words};
pub use explain::conclude;
pub use host::Host;
pub use inputs::{input_size, read_input, read_pieces};
pub use names::first_taken;
pub use outputs::{file_written, print};
