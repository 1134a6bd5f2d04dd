//! Runs of a nest over threads. Each direction of each shell is a state that a feeder thread and a drain thread share,
//! and bounded channels between the shells carry packets and marks.
//!
//! A result is that of the composition of the shells, whatever the order in which the threads get their turns. Nothing
//! is promised of when a run returns, of fairness, or that two threads ran at once.
#![tactic(auto)]

mod begun;
mod feeds;
mod gathering;
mod lane;
mod lanes;
mod paths;
mod run;
mod stream;
mod stream_error;
pub mod work;

pub use feeds::{run_feeds, run_nest_feeds};
pub use run::{run_nest_threads, run_threads};
pub use stream::{run_nest_stream, run_stream, run_stream_keeping};
pub use stream_error::StreamError;
