//! What the commands that run a nest share: what words, a horizon and traces are refused for,
//! the reading of traces and schedules, and the files of logs, tables, schedules and fates.
#![tactic(auto)]

mod checks;
mod keeping;
mod packet_files;
mod run_files;
mod schedule_file;
mod schedules;
mod traces;
mod whole_logs;

pub use checks::{check_count, check_outputs, names_of, packet_outputs, read_plan};
pub use keeping::keep_if;
pub use packet_files::{write_fates, write_packets, write_table};
pub use run_files::{write_in_pieces, write_logs, write_whole};
pub use schedule_file::write_schedule;
pub use schedules::{load_packed, load_schedule, schedule_cause};
pub use traces::load_traces;
pub use whole_logs::write_whole_logs;
