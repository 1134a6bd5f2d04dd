//! The commands `report` and `make`: the report or the series of a log, and the summary of a run whose load and trace
//! are made of a number.
#![tactic(auto)]

mod made;
mod make;
mod make_job;
mod printing;
mod report;
mod report_form;
mod report_job;
mod run;
mod series;
mod summary;
mod words;

pub use make::answer_make;
pub use report::answer_report;
