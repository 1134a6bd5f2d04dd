//! What the tests of the commands share: the words of a line, and a disk and an `out` in memory with what is left
//! there.
#![tactic(auto)]

mod outside;
mod words;

pub use outside::{ABSENT, TestOutside};
pub use words::words_of;
