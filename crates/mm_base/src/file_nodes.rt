// Which files of the machine were read, whatever their names.
use std::alloc::Global;
use std::fs::Metadata;
use std::os::unix::fs::MetadataExt;
use text_base::{OutOfMemory, Text};

// A file as its file system knows it, whatever path leads to it.
#[derive(Clone, Copy, PartialEq, Eq)]
struct FileNode {
    device: u64,
    number: u64,
}

fn node_of(metadata: &Metadata) -> FileNode {
    FileNode {
        device: metadata.dev(),
        number: metadata.ino(),
    }
}

// A file, and the name by which it was read first.
#[derive(Drop)]
struct NamedNode {
    node: FileNode,
    name: Text,
}

/// Files that were read, or whose length was asked for.
#[derive(Drop)]
pub struct FileNodes {
    alloc: Global,
    nodes: Vec<NamedNode>,
}

impl FileNodes {
    /// No file.
    pub fn new(alloc: Global) -> Self {
        FileNodes {
            alloc,
            nodes: Vec::new(alloc),
        }
    }

    /// The place of this file among them, if it is one of them.
    pub fn find(&self, metadata: &Metadata) -> Option<usize> {
        let node = node_of(metadata);
        self.nodes.iter().position(|named| named.node == node)
    }

    /// The name by which the file at a place was read first.
    pub fn name(&self, place: usize) -> Option<&str> {
        Some(self.nodes.get(place)?.name.as_str())
    }

    /// Adds a file of this name.
    pub fn add(&mut self, name: &str, metadata: &Metadata) -> Result<(), OutOfMemory> {
        if self.find(metadata).is_none() {
            let name = Text::from_text(self.alloc, name)?;
            let node = node_of(metadata);
            self.nodes.push(NamedNode { node, name })?;
        }
        Ok(())
    }
}
