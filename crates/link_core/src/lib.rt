//! One direction of a link: the opportunities of a trace, a queue in front of them, and the packet in transit. What
//! departs, what is dropped and what the log says are functions of the opportunities and the arrivals.
#![tactic(auto)]

mod arrivals;
mod buffer;
mod direction;
mod in_place;
mod journal;
mod lap;
mod link_log;
mod opportunities;
mod parts;
mod passage;
mod pieces;
mod places;
mod play;
mod serving;
mod whole;

pub use direction::LinkCore;
pub use link_log::LinkLog;
pub use passage::Passage;
pub use pieces::LogPieces;
pub use whole::run_link;
