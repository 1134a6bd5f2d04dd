// How a read of a link began.

/// How many bytes had been taken from a link, and how many had been given to it, when a read of it began.
#[derive(Clone, Copy, PartialEq, Eq)]
pub struct ReadStart {
    pub taken: usize,
    pub given: usize,
}
