// The files of the machine, with pipes among them. They tell no content.
ghost use Rattle.std.specs.Prelude.{◌≡◌, ◌≢◌, ◌≤◌, None, false, IfOk};
ghost use Rattle.mm_base.specs.Counts.{Rose};

use crate::Pipes;
use crate::sources::Sources;
use mm_base::{Disk, DiskError, FileDisk, FileFault};
use std::alloc::{Alloc, AllocError, Global};
use std::fs::File;
use std::rt::Files;

/// The files of the machine, as `FileDisk` has them, and pipes as inputs. It tells no content. A pipe is read to its end
/// at the first call that reads it, and from then on it is the file with these bytes: by the name by which it was read,
/// whatever that leads to later, and by each other path that leads to it. Of a pipe that sends more than a file may have,
/// 67,108,865 bytes are read, so it is too long as such a file is. A pipe into which nobody writes is waited for.
///
/// A pipe that was read is never created: that is a fault of writing, as it is for a file that was read. Counts are those
/// of a `FileDisk`: a read of a path that leads to nothing is an absence, want of memory isn't counted, and every other
/// error is a fault.
#[derive(Drop)]
pub struct PipedDisk<R: Files<File = File> + Alloc<A = Global> + Drop> {
    sources: Sources<R>,
    reads: u64,
    read_faults: u64,
    write_faults: u64,
    absences: u64,
}

impl<R: Files<File = File> + Alloc<A = Global> + Clone + Drop> PipedDisk<R> {
    /// Returns a disk over the runtime's files, without a read, a fault or an absence so far.
    pub fn new(rt: &R) -> Result<Self, AllocError>
        ensures { IfOk result (λ d. (d.reads ≡ 0) × (d.read_faults ≡ 0) × (d.write_faults ≡ 0) × (d.absences ≡ 0)) }
    {
        let files = FileDisk::new(rt.clone()?);
        Ok(PipedDisk {
            sources: Sources::new(rt.clone()?, files),
            reads: 0,
            read_faults: 0,
            write_faults: 0,
            absences: 0,
        })
    }
}

impl<R: Files<File = File> + Alloc<A = Global> + Drop> PipedDisk<R> {
    /// Returns the pipes that were read.
    pub fn pipes(&self) -> &Pipes {
        self.sources.pipes()
    }

    /// Returns why the last call of the files was refused, if it was.
    pub fn last_error(&self) -> Option<FileFault> {
        self.sources.last_error()
    }

    /// Returns the name by which the file was read that the last output is which was refused as an input.
    pub fn met_input(&self) -> Option<&str> {
        self.sources.met_input()
    }

    // Counts why a read was refused.
    fn refuse_read(&mut self, refusal: DiskError) -> DiskError
        ensures failed { result ≡ DiskError.Failed → Rose self.old.read_faults self.new.read_faults }
        ensures absent { result ≡ DiskError.Absent → Rose self.old.absences self.new.absences }
        ensures faults { self.old.read_faults ≤ self.new.read_faults }
        ensures absences { self.old.absences ≤ self.new.absences }
        ensures reads { self.new.reads ≡ self.old.reads }
        ensures writes { self.new.write_faults ≡ self.old.write_faults }
    {
        match refusal {
            DiskError::Absent => self.absences = self.absences.saturating_add(1),
            DiskError::Failed => self.read_faults = self.read_faults.saturating_add(1),
            DiskError::OutOfMemory => {}
        }
        refusal
    }

    // Counts why a write was refused.
    fn refuse_write(&mut self, refusal: DiskError) -> DiskError
        ensures failed { result ≡ DiskError.Failed → Rose self.old.write_faults self.new.write_faults }
        ensures absent { result ≢ DiskError.Absent }
        ensures faults { self.old.write_faults ≤ self.new.write_faults }
        ensures absences { self.new.absences ≡ self.old.absences }
        ensures reads { self.new.reads ≡ self.old.reads }
        ensures read_faults { self.new.read_faults ≡ self.old.read_faults }
    {
        match refusal {
            DiskError::OutOfMemory => DiskError::OutOfMemory,
            _ => {
                self.write_faults = self.write_faults.saturating_add(1);
                DiskError::Failed
            }
        }
    }
}

impl<R: Files<File = File> + Alloc<A = Global> + Drop> Disk for PipedDisk<R> {
    ghost view = { λ d. record {
      files = None;
      reads = d.reads;
      read_faults = d.read_faults;
      last_fault = None;
      write_faults = d.write_faults;
      absences = d.absences;
      never_fails = false;
    } };

    fn size(&mut self, name: &str) -> Result<u64, DiskError> {
        match self.sources.size(name) {
            Ok(size) => Ok(size),
            Err(refusal) => Err(self.refuse_read(refusal)),
        }
    }

    fn read_at(&mut self, name: &str, at: u64, buf: &mut [u8]) -> Result<usize, DiskError> {
        self.reads = self.reads.saturating_add(1);
        match self.sources.read_at(name, at, buf) {
            Ok(count) => Ok(count),
            Err(refusal) => Err(self.refuse_read(refusal)),
        }
    }

    fn create(&mut self, name: &str) -> Result<(), DiskError> {
        match self.sources.create(name) {
            Ok(()) => Ok(()),
            Err(refusal) => Err(self.refuse_write(refusal)),
        }
    }

    fn append(&mut self, name: &str, piece: &[u8]) -> Result<usize, DiskError> {
        match self.sources.append(name, piece) {
            Ok(count) => Ok(count),
            Err(refusal) => Err(self.refuse_write(refusal)),
        }
    }
}
