//! Traces of delivery opportunities: their formula over laps, their text, and the text read back.
#![tactic(auto)]

mod line;
mod making;
mod opportunity;
mod packed;
mod printing;
mod reading;
mod trace;

pub use making::make_trace;
pub use opportunity::{Opportunity, TraceForm};
pub use printing::print_trace;
pub use reading::{TraceError, read_trace};
pub use trace::Trace;
