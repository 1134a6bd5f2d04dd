//! The top call: what the words of a command line make of the files of a disk and of a port, and what it returns.
#![tactic(auto)]

mod commands;
mod top;

pub use top::{mm_ending, mm_main};
