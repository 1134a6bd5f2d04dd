//! The command `merge`: the list of its senders, what it reads and refuses, in order, and the files that it writes.
#![tactic(auto)]

mod fate;
mod files;
mod inputs;
mod job;
mod list;
mod merge;

pub use merge::answer_merge;
