// A receive of a wire.
use crate::Side;
use text_base::Bytes;

/// A receive that was not refused.
#[derive(Drop)]
pub struct Received {
    /// How many bytes its buffer had.
    pub room: usize,
    /// The side from which a datagram came, and the datagram, cut at the room; `None` where none came.
    pub answer: Option<(Side, Bytes)>,
    /// How many datagrams had been sent to the client when it began.
    pub client: usize,
    /// How many datagrams had been sent to the server when it began.
    pub server: usize,
}
