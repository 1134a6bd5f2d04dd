//! The workers of a run, each with a thread: the source, and in each direction a feeder and a drain for every shell,
//! and a collector. `stages` runs the workers of the shells of a direction beside each other.

pub use shell_workers::{Stage, WorkEnd, collector, drain, feeder, source, stages};
