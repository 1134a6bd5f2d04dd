//! The log of one direction of a link: its entries in order, their text, and the text read back.
#![tactic(auto)]

mod entry;
mod line;
mod log;
mod parser;
mod printing;
mod reading;
mod whole_line;

pub use entry::Entry;
pub use log::Log;
pub use parser::LogParser;
pub use printing::{HEADER, print_log};
pub use reading::{LogError, read_log};
