//! Runs a nest shell by shell, in one thread: each shell over its whole list of arrivals.
#![tactic(auto)]

mod arrivals;
mod first_log;
mod nest_run;
mod plain;
mod run_log;
mod shell;

pub use nest_run::NestRun;
pub use plain::{run_nest, run_packed, run_plain, run_shared};
pub use run_log::{RunLog, UnwrittenLog, log_named};
