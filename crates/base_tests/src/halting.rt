// A reader and writer that signals interrupt.
use std::io::{self, ErrorKind, Read, Write};

// A reader that gives the same bytes at each call, and a writer that adds to them at most two bytes at a call. A signal
// interrupts every other call.
#[derive(Drop)]
pub(crate) struct Halting {
    pub bytes: Vec<u8>,
    interrupts: bool,
}

impl Halting {
    pub fn new(bytes: Vec<u8>) -> Self {
        Halting {
            bytes,
            interrupts: true,
        }
    }
}

impl Read for Halting {
    fn read(&mut self, buf: &mut [u8]) -> io::Result<usize> {
        self.interrupts = !self.interrupts;
        if !self.interrupts {
            return Err(io::Error::from(ErrorKind::Interrupted));
        }
        let count = buf.len().min(self.bytes.len());
        buf[..count].copy_from_slice(&self.bytes[..count]);
        Ok(count)
    }
}

impl Write for Halting {
    fn write(&mut self, piece: &[u8]) -> io::Result<usize> {
        self.interrupts = !self.interrupts;
        if !self.interrupts {
            return Err(io::Error::from(ErrorKind::Interrupted));
        }
        let front = &piece[..piece.len().min(2)];
        match self.bytes.extend_from_slice(front) {
            Ok(()) => Ok(front.len()),
            Err(_) => Err(io::Error::from(ErrorKind::OutOfMemory)),
        }
    }

    fn flush(&mut self) -> io::Result<()> {
        Ok(())
    }
}
