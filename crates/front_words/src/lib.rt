//! What the programs say to a person on the standard error: why a command line isn't done, with what was typed and
//! where, or the usage or the version if the words ask for it.
//!
//! The line on the standard output is the answer that other programs read; what stands here is for a person, and is
//! tested and not proved.
#![tactic(auto)]

mod asked;
mod causes;
mod commit;
mod empties;
mod faults;
mod hints;
mod inputs;
mod lacks;
mod nest_faults;
mod own_port;
mod pages;
mod places;
mod program;
mod queue_faults;
mod quotes;
mod reasons;
mod roles;
mod rules;
mod shells;
mod slips;
mod strange_words;
mod telling;

pub use own_port::warn_of_own_port;
pub use program::Program;
pub use reasons::Reason;
pub use telling::{tell, tell_reason};
