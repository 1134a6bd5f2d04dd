// Datagrams for which a socket had no room yet.
use crate::Side;
use crate::ends::{Ends, Given};
use std::alloc::Global;
use std::collections::VecDeque;
use std::io::{self, ErrorKind};
use text_base::Bytes;

// The most datagrams that are kept.
const MOST: usize = 4_096;

// A datagram that wasn't sent yet, and the side to which it goes.
#[derive(Drop)]
struct Datagram {
    side: Side,
    bytes: Bytes,
}

/// Datagrams that weren't sent yet, in order.
#[derive(Drop)]
pub(crate) struct Unsent {
    alloc: Global,
    datagrams: VecDeque<Datagram>,
}

impl Unsent {
    /// None.
    pub fn new(alloc: Global) -> Self {
        Unsent {
            alloc,
            datagrams: VecDeque::new(alloc),
        }
    }

    /// Whether all was sent.
    pub fn is_empty(&self) -> bool {
        self.datagrams.is_empty()
    }

    /// How many weren't sent.
    pub fn len(&self) -> usize {
        self.datagrams.len()
    }

    /// Keeps a datagram. Returns false where 4,096 are kept already, and it is lost.
    pub fn keep(&mut self, side: Side, piece: &[u8]) -> io::Result<bool> {
        if self.datagrams.len() >= MOST {
            return Ok(false);
        }
        let Ok(bytes) = Bytes::from_slice(self.alloc, piece) else {
            return Err(io::Error::from(ErrorKind::OutOfMemory));
        };
        if self.datagrams.push_back(Datagram { side, bytes }).is_err() {
            return Err(io::Error::from(ErrorKind::OutOfMemory));
        }
        Ok(true)
    }

    /// Sends what is kept, as far as there is room. What of it is lost is counted in `lost`, also before an error.
    pub fn send_all(&mut self, ends: &Ends, lost: &mut u64) -> io::Result<()> {
        for _ in 0..MOST {
            let Some(datagram) = self.datagrams.front() else {
                return Ok(());
            };
            match ends.give(datagram.side, datagram.bytes.as_slice())? {
                Given::Full => return Ok(()),
                Given::Lost => *lost = lost.saturating_add(1),
                Given::Sent => {}
            }
            let _ = self.datagrams.pop_front();
        }
        Ok(())
    }
}
