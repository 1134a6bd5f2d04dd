// Tests of files in memory: read, written, loaded and saved whole.
use mm_base::{Disk, DiskError, LoadError, MemDisk, load, save};
use std::alloc::Global;
use std::process::Abort;
use text_base::{Bytes, OutOfMemory, Text};

// Returns a disk in memory with one file. The calls whose numbers are in `fails` fail.
pub(crate) fn disk_with(
    alloc: Global,
    name: &str,
    bytes: &[u8],
    fails: &[u64],
) -> Result<MemDisk, OutOfMemory> {
    let mut files = Vec::new(alloc);
    files.push((
        Text::from_text(alloc, name)?,
        Bytes::from_slice(alloc, bytes)?,
    ))?;
    Ok(MemDisk::new(alloc, files, fails.to_vec(alloc)?))
}

// Returns whether a file holds the bytes `said`.
pub(crate) fn holds(disk: &MemDisk, name: &str, said: &[u8]) -> bool {
    match disk.file(name) {
        Some(bytes) => bytes == said,
        None => false,
    }
}

// Returns whether a read from the place `at` into `buf` brings the bytes `said`.
fn reads<D: Disk>(disk: &mut D, name: &str, at: u64, buf: &mut [u8], said: &[u8]) -> bool {
    let read = disk.read_at(name, at, buf);
    read == Ok(said.len()) && buf.starts_with(said)
}

// Returns whether adding `bytes` to a file gives `said`.
fn adds<D: Disk>(disk: &mut D, name: &str, bytes: &[u8], said: Result<usize, DiskError>) -> bool {
    disk.append(name, bytes) == said
}

// Returns whether making a file empty gives `said`.
fn creates<D: Disk>(disk: &mut D, name: &str, said: Result<(), DiskError>) -> bool {
    disk.create(name) == said
}

// Returns whether saving `bytes` as a file gives `said`.
fn saves<D: Disk>(disk: &mut D, name: &str, bytes: &[u8], said: Result<(), DiskError>) -> bool {
    save(disk, name, bytes) == said
}

// Returns whether loading a file of at most `most` bytes gives `said`.
fn loads<D: Disk>(
    alloc: Global,
    disk: &mut D,
    name: &str,
    most: u64,
    said: Result<&[u8], LoadError>,
) -> bool {
    match load(alloc, disk, name, most) {
        Ok(bytes) => said == Ok(bytes.as_slice()),
        Err(error) => said == Err(error),
    }
}

// Names of files, and what asking for their lengths gives. The second call fails.
static SIZES: [(&str, Result<u64, DiskError>); 3] = [
    ("s", Ok(3)),
    ("s", Err(DiskError::Failed)),
    ("t", Err(DiskError::Absent)),
];

// Checks the lengths of the files.
fn has_sizes(rt: &impl Abort, disk: &mut MemDisk) {
    assert!(rt; disk.last_fault().is_none());
    for &(name, said) in &SIZES {
        assert!(rt; disk.size(name) == said);
    }
    assert!(rt; disk.last_fault() == Some("s"));
}

// Returns whether a file is read after a call that fails.
fn is_read(disk: &mut MemDisk) -> bool {
    adds(disk, "t", b"x", Err(DiskError::Failed))
        && reads(disk, "s", 1, &mut [0u8; 2], b"bc")
        && reads(disk, "s", 3, &mut [0u8; 2], b"")
}

// Returns whether a file is made by adding to it, and another one is made empty.
fn changes(disk: &mut MemDisk) -> bool {
    adds(disk, "t", b"x", Ok(1))
        && holds(disk, "t", b"x")
        && creates(disk, "s", Ok(()))
        && holds(disk, "s", b"")
        && disk.file("u").is_none()
}

#[test]
fn a_disk_in_memory_fails_by_its_list(rt: HostRuntime) {
    let mut disk = disk_with(rt.alloc(), "s", b"abc", &[2, 4]).expect(&rt, "memory");
    has_sizes(&rt, &mut disk);
    assert!(rt; is_read(&mut disk) && changes(&mut disk));
}

// Names of files, how many bytes are loaded at most, and what loading gives.
static LOADS: [(&str, u64, Result<&[u8], LoadError>); 4] = [
    ("s", 3, Ok(b"abc")),
    ("s", 2, Err(LoadError::TooLong { size: 3 })),
    ("t", 3, Err(LoadError::Absent)),
    ("s", 3, Err(LoadError::Failed)),
];

// Checks that each file is loaded so.
fn are_loaded(rt: &impl Abort, alloc: Global, disk: &mut MemDisk) {
    for &(name, most, said) in &LOADS {
        assert!(rt;
            loads(alloc, disk, name, most, said),
            "of {name} up to {most}"
        );
    }
}

// Returns whether a file is saved, and then left empty where a call fails.
fn saves_twice(disk: &mut MemDisk) -> bool {
    saves(disk, "f", b"12", Ok(()))
        && holds(disk, "f", b"12")
        && saves(disk, "f", b"34", Err(DiskError::Failed))
        && holds(disk, "f", b"")
}

#[test]
fn files_are_loaded_and_saved_whole(rt: HostRuntime) {
    let mut disk = disk_with(rt.alloc(), "s", b"abc", &[5, 9]).expect(&rt, "memory");
    are_loaded(&rt, rt.alloc(), &mut disk);
    assert!(rt; saves_twice(&mut disk));
}
