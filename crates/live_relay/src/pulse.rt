// What a wire over UDP tells the clock beside it.
use std::cell::Cell;
use std::os::fd::RawFd;

/// What a wire over UDP tells the clock beside it: its socket, whether its last receive took a datagram, and whether
/// any came or left lately. So the clock knows how long it may rest. A clock whose pulse has no socket never rests.
#[derive(Drop)]
pub struct Pulse {
    socket: Cell<Option<RawFd>>,
    received: Cell<bool>,
    moved: Cell<bool>,
}

impl Pulse {
    /// A pulse of which no wire has told anything.
    pub fn new() -> Self {
        Pulse {
            socket: Cell::new(None),
            received: Cell::new(false),
            moved: Cell::new(false),
        }
    }

    /// A wire was opened with this socket.
    pub(crate) fn opened(&self, socket: RawFd) {
        self.socket.set(Some(socket));
        self.moved.set(true);
    }

    /// A datagram came.
    pub(crate) fn came(&self) {
        self.received.set(true);
        self.moved.set(true);
    }

    /// A datagram left.
    pub(crate) fn left(&self) {
        self.moved.set(true);
    }

    /// The socket of the wire, once it is open.
    pub(crate) fn socket(&self) -> Option<RawFd> {
        self.socket.get()
    }

    /// Whether a datagram came since this was asked before.
    pub(crate) fn take_received(&self) -> bool {
        self.received.replace(false)
    }

    /// Whether a datagram came or left since this was asked before.
    pub(crate) fn take_moved(&self) -> bool {
        self.moved.replace(false)
    }
}
