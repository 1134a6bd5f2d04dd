//! Sums up the log of one direction of a link: its entries counted and summed by kind, the share of the offered bytes
//! that was used, and the delays of its departures by rank. A report is made of a log, or of a log's text as it is
//! read. A series has such sums for each of many short times.
#![tactic(auto)]

mod bins;
mod builder;
mod delays;
mod few_delays;
mod figures;
mod json;
mod printing;
mod series;
mod series_text;
mod sums;
mod whole;

pub use bins::Bin;
pub use builder::ReportBuilder;
pub use figures::{Delays, Report, ReportError};
pub use json::print_json;
pub use printing::{EMPTY, print_report};
pub use series::Series;
pub use series_text::{SERIES_HEADER, print_bin};
pub use whole::report;
