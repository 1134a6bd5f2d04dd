// A disk of which it is known what was written.
use mm_base::{Disk, DiskError};

/// A disk that does what another does, and knows whether a file was to be created, and how many bytes were appended.
#[derive(Drop)]
pub(crate) struct SeenDisk<D: Disk + Drop> {
    pub disk: D,
    pub is_written: bool,
    pub bytes: u64,
}

impl<D: Disk + Drop> SeenDisk<D> {
    /// A disk to which nothing was written so far.
    pub fn new(disk: D) -> Self {
        SeenDisk {
            disk,
            is_written: false,
            bytes: 0,
        }
    }
}

impl<D: Disk + Drop> Disk for SeenDisk<D> {
    ghost view = { λ d. D.view d.disk };

    fn size(&mut self, name: &str) -> Result<u64, DiskError> {
        self.disk.size(name)
    }

    fn read_at(&mut self, name: &str, at: u64, buf: &mut [u8]) -> Result<usize, DiskError> {
        self.disk.read_at(name, at, buf)
    }

    fn create(&mut self, name: &str) -> Result<(), DiskError> {
        self.is_written = true;
        self.disk.create(name)
    }

    fn append(&mut self, name: &str, piece: &[u8]) -> Result<usize, DiskError> {
        let count = self.disk.append(name, piece)?;
        self.bytes = self.bytes.saturating_add(count as u64);
        Ok(count)
    }
}
