// What reading a head, or a whole message, gives.
use crate::errors::FrameError;
use crate::framing::Framing;

/// A head that was read.
#[derive(Drop)]
pub struct HeadRead<H> {
    /// How many bytes the head has.
    pub len: usize,
    /// Where the body ends.
    pub framing: Framing,
    /// What the head says.
    pub head: H,
}

/// A message at the front.
#[derive(Drop)]
pub struct FoundMessage<H> {
    /// What the head says.
    pub head: H,
    /// How many bytes the message has.
    pub len: usize,
}

/// What reading a head gives.
#[derive(Drop)]
pub enum HeadStep<H> {
    /// The head.
    Head(HeadRead<H>),
    /// More bytes are needed.
    More,
    /// There is no head that can be accepted, and none can come.
    Fault(FrameError),
}
