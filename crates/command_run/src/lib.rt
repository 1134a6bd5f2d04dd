//! The command `run`: what its words ask for, what it reads and refuses, in order, and the files that it writes.
#![tactic(auto)]

mod order;
mod passing;
mod run;
mod run_files;
mod run_job;

pub use run::answer_run;
