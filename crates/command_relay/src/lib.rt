//! The program `mm-relay`: what its words ask for, what it reads and refuses, in order, the datagrams that it lets
//! pass, and what it writes and prints.
#![tactic(auto)]

mod command;
mod files;
mod inputs;
mod job;
mod line;
mod outputs;
mod passing;
mod refusing;
mod words;

pub use command::{relay_ending, relay_main};
pub use refusing::{output_names, refuse_output};
