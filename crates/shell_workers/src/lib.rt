//! The workers of a run that know no nest.
//!
//! A direction of a shell has a feeder and a drain, each with a thread, and behind the last shell is a collector.
//! `stages` runs those of all shells of a direction beside each other. The source of a run sends the rows of a schedule
//! in both directions. The rows are in memory, or in a file that is read meanwhile.
//!
//! Nothing is promised of when a worker returns, of fairness, or that two threads ran at once.
#![tactic(auto)]

mod collecting;
mod draining;
mod ends;
mod feeding;
mod running;
mod schedule_file;
mod sourcing;
mod stage;
mod streaming;

pub use collecting::collector;
pub use draining::drain;
pub use ends::WorkEnd;
pub use feeding::feeder;
pub use running::{run_stages, stages};
pub use schedule_file::ScheduleFile;
pub use sourcing::{Progress, end_both, source, source_row, source_rows};
pub use stage::Stage;
pub use streaming::stream_source;
