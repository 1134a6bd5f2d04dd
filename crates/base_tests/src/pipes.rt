// Tests of real files: pipes as outputs, inputs that are replaced and outputs that are renamed while they are open,
// files that say that they are empty, files that are to be input and output at once, reads from a place, a file that is
// saved twice and added to, and what is no regular file.
use mm_base::{Disk, DiskError, FileDisk, load, save};
use std::alloc::Global;
use std::fs::{self, Files};
use std::io;
use std::os::fd::AsRawFd;

fn disk_of(rt: &HostRuntime) -> FileDisk<HostRuntime> {
    FileDisk::new(*rt)
}

// Returns a path that leads to an open descriptor of this process.
fn path_of(alloc: Global, descriptor: i32) -> io::Result<String> {
    Ok(format!(in alloc; "/proc/self/fd/{descriptor}")?)
}

// Returns whether an output is made and is added to twice.
fn is_written<D: Disk>(disk: &mut D, name: &str) -> bool {
    disk.create(name) == Ok(())
        && disk.append(name, b"one") == Ok(3)
        && disk.append(name, b"two") == Ok(3)
}

// Returns whether a pipe that is an output gets all pieces, and stays open until the disk is dropped.
fn is_one_stream(rt: &HostRuntime) -> io::Result<bool> {
    let (reader, writer) = io::pipe(rt)?;
    let path = path_of(rt.alloc(), writer.as_raw_fd())?;
    let mut disk = disk_of(rt);
    let is_written = is_written(&mut disk, path.as_str());
    drop(writer);
    let is_added = disk.append(path.as_str(), b"end") == Ok(3);
    drop(disk);
    Ok(is_written && is_added && io::read_to_string(rt.alloc(), reader)?.as_str() == "onetwoend")
}

#[test]
fn a_pipe_is_one_output(rt: HostRuntime) {
    assert!(rt; is_one_stream(&rt).expect(&rt, "a pipe"));
}

// Returns whether adding to a pipe whose reader is gone is a fault.
fn is_broken(rt: &HostRuntime) -> io::Result<bool> {
    let (reader, writer) = io::pipe(rt)?;
    let path = path_of(rt.alloc(), writer.as_raw_fd())?;
    let mut disk = disk_of(rt);
    let is_made = disk.create(path.as_str()) == Ok(());
    drop(reader);
    Ok(is_made && disk.append(path.as_str(), b"one") == Err(DiskError::Failed))
}

#[test]
fn a_reader_that_has_gone_is_a_fault(rt: HostRuntime) {
    assert!(rt; is_broken(&rt).expect(&rt, "a pipe"));
}

// Returns whether a file whose length was asked for is still read once another one has replaced it.
fn is_read_on(rt: &HostRuntime, name: &str, other: &str) -> io::Result<bool> {
    fs::write(rt, name, "old")?;
    fs::write(rt, other, "new!")?;
    let mut disk = disk_of(rt);
    let mut buf = [0u8; 4];
    let is_sized = disk.size(name) == Ok(3);
    fs::rename(rt, other, name)?;
    let is_old = disk.read_at(name, 0, &mut buf) == Ok(3) && buf.starts_with(b"old");
    Ok(is_sized && is_old && disk.size(name) == Ok(4))
}

#[test]
fn an_input_that_is_replaced_is_read_through_one_open(rt: HostRuntime) {
    let name = "base_tests_replaced";
    assert!(rt; is_read_on(&rt, name, "base_tests_replacing").expect(&rt, "a file"));
    fs::remove_file(&rt, name).expect(&rt, "a file");
}

// Returns whether an output that is renamed gets all pieces.
fn is_written_on(rt: &HostRuntime, name: &str, other: &str) -> io::Result<bool> {
    let mut disk = disk_of(rt);
    let is_begun = disk.create(name) == Ok(()) && disk.append(name, b"one") == Ok(3);
    fs::rename(rt, name, other)?;
    let is_ended = disk.append(name, b"two") == Ok(3);
    Ok(is_begun && is_ended && fs::read_to_string(rt, other)?.as_str() == "onetwo")
}

#[test]
fn an_output_that_is_renamed_gets_all(rt: HostRuntime) {
    let other = "base_tests_renamed";
    assert!(rt; is_written_on(&rt, "base_tests_renaming", other).expect(&rt, "a file"));
    fs::remove_file(&rt, other).expect(&rt, "a file");
}

// A file of the system that says that it is empty, and isn't, is refused. An empty one isn't.
#[test]
fn a_file_that_is_not_as_empty_as_it_says_is_refused(rt: HostRuntime) {
    let name = "base_tests_empty";
    fs::write(&rt, name, "").expect(&rt, "a file");
    let mut disk = disk_of(&rt);
    assert!(rt; disk.size("/proc/cpuinfo") == Err(DiskError::Failed));
    assert!(rt; disk.size(name) == Ok(0));
    fs::remove_file(&rt, name).expect(&rt, "a file");
}

// Returns whether an input isn't made as an output by the name `name`, and is as it was.
fn is_no_output(rt: &HostRuntime, disk: &mut FileDisk<HostRuntime>, name: &str) -> bool {
    disk.create(name) == Err(DiskError::Failed)
        && matches!(fs::read_to_string(rt, name), Ok(text) if text.as_str() == "held")
}

// Returns whether a file whose length was asked for isn't made by any path that leads to it.
fn is_never_both(rt: &HostRuntime, name: &str) -> io::Result<bool> {
    fs::write(rt, name, "held")?;
    fs::hard_link(rt, name, "base_tests_hard")?;
    rt.symlink(name, "base_tests_symbolic")?;
    let mut disk = disk_of(rt);
    let is_sized = disk.size(name) == Ok(4);
    Ok(
        is_sized
            && is_no_output(rt, &mut disk, name)
            && is_no_output(rt, &mut disk, "./base_tests_input")
            && is_no_output(rt, &mut disk, "base_tests_hard")
            && is_no_output(rt, &mut disk, "base_tests_symbolic"),
    )
}

#[test]
fn an_output_is_never_an_input(rt: HostRuntime) {
    assert!(rt; is_never_both(&rt, "base_tests_input").expect(&rt, "a file"));
    fs::remove_file(&rt, "base_tests_input").expect(&rt, "a file");
    fs::remove_file(&rt, "base_tests_hard").expect(&rt, "a link");
    fs::remove_file(&rt, "base_tests_symbolic").expect(&rt, "a link");
}

// Returns whether a real file is read from a place near its end, and at its end.
fn is_read_from_places(rt: &HostRuntime, name: &str) -> io::Result<bool> {
    fs::write(rt, name, "0123456789")?;
    let mut disk = disk_of(rt);
    let mut buf = [0u8; 4];
    let is_rest = disk.read_at(name, 8, &mut buf) == Ok(2) && buf.starts_with(b"89");
    Ok(is_rest && disk.read_at(name, 10, &mut buf) == Ok(0))
}

#[test]
fn a_real_file_is_read_from_places(rt: HostRuntime) {
    let name = "base_tests_places";
    assert!(rt; is_read_from_places(&rt, name).expect(&rt, "a file"));
    fs::remove_file(&rt, name).expect(&rt, "a file");
}

// Returns whether the file is loaded as `text`.
fn is_loaded(rt: &HostRuntime, name: &str, text: &[u8]) -> bool {
    let loaded = load(rt.alloc(), &mut disk_of(rt), name, 10);
    matches!(loaded, Ok(bytes) if bytes.as_slice() == text)
}

#[test]
fn a_real_file_is_saved_twice_and_added_to(rt: HostRuntime) {
    let name = "base_tests_saved";
    let mut disk = disk_of(&rt);
    assert!(rt;
        save(&mut disk, name, b"longer") == Ok(()) && save(&mut disk, name, b"ab") == Ok(())
    );
    assert!(rt; is_loaded(&rt, name, b"ab"));
    let mut disk = disk_of(&rt);
    assert!(rt;
        save(&mut disk, name, b"held\n") == Ok(()) && disk.append(name, b"more\n") == Ok(5)
    );
    assert!(rt; is_loaded(&rt, name, b"held\nmore\n"));
    fs::remove_file(&rt, name).expect(&rt, "a file");
}

// No file has an empty name; a folder and a device aren't read.
#[test]
fn what_is_no_file_is_refused(rt: HostRuntime) {
    let mut disk = disk_of(&rt);
    let mut buf = [0u8; 4];
    assert!(rt; disk.create("") == Err(DiskError::Failed));
    assert!(rt; disk.read_at("/", 0, &mut buf) == Err(DiskError::Failed));
    assert!(rt; disk.read_at("/dev/zero", 0, &mut buf) == Err(DiskError::Failed));
}
