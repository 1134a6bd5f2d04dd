// What the workers of a run share.
use crate::Begun;

/// What the workers of a run share.
#[derive(Clone, Copy)]
pub struct Run<'a, Q, R> {
    /// The runtime, whose threads they are.
    pub rt: &'a R,
    /// The pace. It is asked before each row that is sent, each feed and each take, and after each packet that is
    /// collected.
    pub pace: &'a Q,
    /// The count of those that have begun.
    pub begun: &'a Begun,
}
