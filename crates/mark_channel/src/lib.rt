//! A bounded channel of items from one sender to one receiver. No item, mark or other, is lost or doubled.
//!
//! Contracts see what went through an end as a stream, its `flow`, and as the list of its `items`; the program keeps
//! neither. The receiver gets what was sent, item by item, in order. Nothing is promised of when a call that waits
//! returns.
#![tactic(auto)]

mod begun;
pub mod bell;
mod bells;
mod channel;
mod feeds;
mod receiver;
mod rule;
mod run;
mod sender;

pub use begun::Begun;
pub use channel::{open, settle};
pub use feeds::{FeedEnd, Feeds};
pub use receiver::Receiver;
pub use run::Run;
pub use sender::Sender;
