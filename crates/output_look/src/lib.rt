//! Whether an output can be written, looked at before a port is opened.
#![tactic(auto)]

mod look;

pub use look::look_at;
