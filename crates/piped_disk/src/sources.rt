// Files of the machine and pipes, without counts of what was asked of them.
ghost use Rattle.std.specs.Prelude.{◌≤◌, ◌<◌, length, IfOk};

use crate::kept::{Pipes, copy_from};
use crate::pipe::place_of;
use mm_base::{Disk, DiskError, FileDisk, FileFault};
use std::alloc::{Alloc, Global};
use std::fs::{self, File};
use std::io::{self, ErrorKind};
use std::rt::Files;

/// The files of the machine, and the pipes that were read.
#[derive(Drop)]
pub(crate) struct Sources<R: Files<File = File> + Alloc<A = Global> + Drop> {
    rt: R,
    files: FileDisk<R>,
    pipes: Pipes,
    /// The pipe that the last output is which was refused as an input.
    met: Option<usize>,
    /// Why the last call was refused at a pipe.
    fault: Option<FileFault>,
}

// Returns what the error of a pipe says.
fn fault_of(error: &io::Error) -> FileFault {
    match (error.raw_os_error(), error.kind()) {
        (Some(code), _) => FileFault::System { code },
        (None, ErrorKind::Unsupported) => FileFault::NotRegular,
        (None, _) => FileFault::Other,
    }
}

// Returns the refusal that the error of a pipe is.
fn refusal_of(error: &io::Error) -> DiskError {
    match error.kind() {
        ErrorKind::NotFound => DiskError::Absent,
        ErrorKind::OutOfMemory => DiskError::OutOfMemory,
        _ => DiskError::Failed,
    }
}

impl<R: Files<File = File> + Alloc<A = Global> + Drop> Sources<R> {
    /// Returns these files, and no pipe.
    pub(crate) fn new(rt: R, files: FileDisk<R>) -> Self {
        let pipes = Pipes::new(rt.alloc());
        Sources {
            rt,
            files,
            pipes,
            met: None,
            fault: None,
        }
    }

    /// Returns the pipes that were read.
    pub(crate) fn pipes(&self) -> &Pipes {
        &self.pipes
    }

    /// Returns why the last call was refused.
    pub(crate) fn last_error(&self) -> Option<FileFault> {
        match self.fault {
            Some(fault) => Some(fault),
            None => self.files.last_error(),
        }
    }

    /// Returns the name by which the input was read that the last output is which was refused as one.
    pub(crate) fn met_input(&self) -> Option<&str> {
        match self.met {
            Some(place) => self.pipes.name(place),
            None => self.files.met_input(),
        }
    }

    // Returns the place of the pipe of this name, at which the files refused a call.
    fn place(&mut self, name: &str, refusal: DiskError) -> Result<usize, DiskError> {
        if self.files.last_error() != Some(FileFault::NotRegular) {
            return Err(refusal);
        }
        match place_of(self.rt.alloc(), &self.rt, name, &mut self.pipes) {
            Ok(place) => Ok(place),
            Err(error) => {
                self.fault = Some(fault_of(&error));
                Err(refusal_of(&error))
            }
        }
    }

    /// Returns how many bytes a file or a pipe has. A pipe is read.
    pub(crate) fn size(&mut self, name: &str) -> Result<u64, DiskError> {
        self.fault = None;
        if let Some(bytes) = self.pipes.find(name) {
            return Ok(bytes.len() as u64);
        }
        match self.files.size(name) {
            Ok(size) => Ok(size),
            Err(refusal) => {
                let place = self.place(name, refusal)?;
                match self.pipes.bytes(place) {
                    Some(bytes) => Ok(bytes.len() as u64),
                    None => Ok(0),
                }
            }
        }
    }

    /// Reads bytes of a file or a pipe from a place on, into the start of `buf`, and returns how many.
    pub(crate) fn read_at(
        &mut self,
        name: &str,
        at: u64,
        buf: &mut [u8],
    ) -> Result<usize, DiskError>
        ensures { IfOk result (λ n. n ≤ length buf.old) }
    {
        self.fault = None;
        if let Some(bytes) = self.pipes.find(name) {
            return Ok(copy_from(bytes, at, buf));
        }
        match self.files.read_at(name, at, buf) {
            Ok(count) => Ok(count),
            Err(refusal) => {
                let place = self.place(name, refusal)?;
                match self.pipes.bytes(place) {
                    Some(bytes) => Ok(copy_from(bytes, at, buf)),
                    None => Ok(0),
                }
            }
        }
    }

    // Returns the place of the pipe that an output would be, if it was read.
    fn met_at(&self, name: &str) -> Option<usize> {
        self.pipes.place(&fs::metadata(&self.rt, name).ok()?)
    }

    /// Leaves a file empty, and makes it if there is none. A pipe that was read is refused.
    pub(crate) fn create(&mut self, name: &str) -> Result<(), DiskError> {
        self.fault = None;
        self.met = self.met_at(name);
        if self.met.is_some() {
            self.fault = Some(FileFault::IsInput);
            return Err(DiskError::Failed);
        }
        self.files.create(name)
    }

    /// Adds bytes of `piece`'s start at the end of a file, and returns how many.
    pub(crate) fn append(&mut self, name: &str, piece: &[u8]) -> Result<usize, DiskError>
        ensures within { IfOk result (λ n. n ≤ length piece.now) }
        ensures some { IfOk result (λ n. 0 < length piece.now → 0 < n) }
    {
        self.fault = None;
        self.files.append(name, piece)
    }
}
