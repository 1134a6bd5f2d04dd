//! The three queues of a link (infinite, droptail and drophead), and the words for one.
#![tactic(auto)]

mod queue;
mod reading;
mod spec;
mod waiting;

pub use queue::{Dropped, PacketQueue};
pub use reading::read_queue;
pub use spec::{QueueError, QueueKind, QueueSpec};
