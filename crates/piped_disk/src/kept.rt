// Pipes that were read to their ends, by name.
ghost use Rattle.std.specs.Prelude.{◌≡◌, ◌≤◌, ◌<◌, ◌-◌, length, take, drop, IfSome};

use std::alloc::Global;
use std::fs::Metadata;
use std::os::unix::fs::MetadataExt;
use text_base::{Bytes, OutOfMemory, Text};

// A pipe as its file system knows it, whatever path leads to it.
#[derive(Clone, Copy, PartialEq, Eq)]
struct Node {
    device: u64,
    number: u64,
}

fn node_of(metadata: &Metadata) -> Node {
    Node {
        device: metadata.dev(),
        number: metadata.ino(),
    }
}

// A pipe, and what came from it.
#[derive(Drop)]
struct Pipe {
    name: Text,
    node: Node,
    bytes: Bytes,
}

/// Pipes that were read to their ends, each under the name by which it was read first.
#[derive(Drop)]
pub struct Pipes {
    alloc: Global,
    pipes: Vec<Pipe>,
}

/// Copies bytes from a place on, as many as there is room for, and returns how many.
pub(crate) fn copy_from(bytes: &[u8], at: u64, buf: &mut [u8]) -> usize
    ensures within { result ≤ length buf.old }
    ensures copied { take result buf.new ≡ take result (drop at bytes.now) }
    ensures there { result ≤ length bytes.now - at }
    ensures end { result ≡ 0 → 0 < length buf.old → length bytes.now ≤ at }
{
    if bytes.len() as u64 <= at {
        return 0;
    }
    let rest = &bytes[at as usize..];
    let count = rest.len().min(buf.len());
    buf[..count].copy_from_slice(&rest[..count]);
    count
}

impl Pipes {
    /// No pipe. It takes no memory.
    pub fn new(alloc: Global) -> Self {
        Pipes {
            alloc,
            pipes: Vec::new(alloc),
        }
    }

    /// Returns the bytes of the pipe that was read by this name.
    pub fn find(&self, name: &str) -> Option<&[u8]> {
        for pipe in self.pipes.iter() {
            if pipe.name.as_str() == name {
                return Some(pipe.bytes.as_slice());
            }
        }
        None
    }

    /// Returns the place of the pipe to which some path leads.
    pub(crate) fn place(&self, metadata: &Metadata) -> Option<usize>
        ensures { IfSome result (λ place. place < length self.now.pipes.items) }
    {
        let node = node_of(metadata);
        self.pipes.iter().position(|pipe| pipe.node == node)
    }

    /// Returns the name by which the pipe at a place was read first.
    pub(crate) fn name(&self, place: usize) -> Option<&str> {
        Some(self.pipes.get(place)?.name.as_str())
    }

    /// Returns the bytes of the pipe at a place.
    pub(crate) fn bytes(&self, place: usize) -> Option<&[u8]> {
        Some(self.pipes.get(place)?.bytes.as_slice())
    }

    /// Keeps what came from a pipe that was read by this name.
    pub(crate) fn keep(
        &mut self,
        name: &str,
        metadata: &Metadata,
        bytes: Bytes,
    ) -> Result<(), OutOfMemory> {
        let name = Text::from_text(self.alloc, name)?;
        let node = node_of(metadata);
        self.pipes.push(Pipe { name, node, bytes })?;
        Ok(())
    }
}
