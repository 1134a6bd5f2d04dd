// How a top call ends.
use crate::Cause;

/// The answer of a command line, and its exit status.
#[derive(Drop)]
pub struct Ending {
    pub answer: Result<(), Cause>,
    pub status: u8,
}
