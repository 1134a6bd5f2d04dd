// The inputs of a command line, read once more to say what is wrong with them.
use mm_base::{Disk, FileDisk, load};
use piped_disk::Pipes;
use std::alloc::{Alloc, Global};
use std::fs::File;
use std::rt::Files;
use text_base::Bytes;
use text_base::limits::MOST_FILE_BYTES;

/// The inputs of a command line, by name. What came from a pipe is kept, since it can't be read again.
#[derive(Drop)]
pub(crate) struct Inputs<'a, R: Files<File = File> + Alloc<A = Global> + Drop> {
    alloc: Global,
    disk: FileDisk<R>,
    pipes: &'a Pipes,
}

impl<'a, R: Files<File = File> + Alloc<A = Global> + Clone + Drop> Inputs<'a, R> {
    /// Returns the inputs, of which these are the pipes, if there is memory for them.
    pub(crate) fn new(rt: &R, pipes: &'a Pipes) -> Option<Self> {
        Some(Inputs {
            alloc: rt.alloc(),
            disk: FileDisk::new(rt.clone().ok()?),
            pipes,
        })
    }

    /// Returns the bytes of an input, if it can be read.
    pub(crate) fn load(&mut self, name: &str) -> Option<Bytes> {
        match self.pipes.find(name) {
            Some(bytes) => Bytes::from_slice(self.alloc, bytes).ok(),
            None => load(self.alloc, &mut self.disk, name, MOST_FILE_BYTES).ok(),
        }
    }

    /// Reads the first bytes of an input, and returns how many these are.
    pub(crate) fn read_front(&mut self, name: &str, front: &mut [u8]) -> Option<usize> {
        match self.pipes.find(name) {
            Some(bytes) => {
                let count = bytes.len().min(front.len());
                front[..count].copy_from_slice(&bytes[..count]);
                Some(count)
            }
            None => self.disk.read_at(name, 0, front).ok(),
        }
    }

    /// Returns whether an input can be read and has no bytes.
    pub(crate) fn is_empty(&mut self, name: &str) -> bool {
        match self.pipes.find(name) {
            Some(bytes) => bytes.is_empty(),
            None => self.disk.size(name) == Ok(0),
        }
    }
}
