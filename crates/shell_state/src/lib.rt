//! One direction of a shell, which is fed items and from which items are taken, in any order of the two.
#![tactic(auto)]

mod front;
mod kinds;
mod parts;
mod spec;
mod state;
mod stream;
mod taken;
mod threads;
mod whole;

pub use kinds::{Core, run_whole, whole_link_log};
pub use link_core::{LinkLog, Passage};
pub use spec::DirSpec;
pub use state::ShellState;
pub use stream::StreamView;
pub use taken::Taken;
