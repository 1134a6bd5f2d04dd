//! The files of the machine, of which a pipe is one: it is read to its end once, and is the file with these bytes.
#![tactic(auto)]

mod kept;
mod pipe;
mod piped_disk;
mod sources;

pub use kept::Pipes;
pub use piped_disk::PipedDisk;
