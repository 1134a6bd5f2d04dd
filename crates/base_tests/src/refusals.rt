// Tests of what real files and a real port say of a call that they refused.
use mm_base::{Disk, DiskError, EndError, FileDisk, FileFault, Port, TcpPort};
use std::{fs, io};

const NO_SUCH_FILE: FileFault = FileFault::System { code: 2 };

const IS_A_FOLDER: FileFault = FileFault::System { code: 21 };

const ADDRESS_IN_USE: i32 = 98;

type Files = FileDisk<HostRuntime>;

// Returns whether asking for a file's length gives `error`, because of `fault`.
fn is_unread(disk: &mut Files, name: &str, error: DiskError, fault: FileFault) -> bool {
    disk.size(name) == Err(error) && disk.last_error() == Some(fault)
}

// Returns whether making a file fails because of `fault`.
fn is_unmade(disk: &mut Files, name: &str, fault: FileFault) -> bool {
    disk.create(name) == Err(DiskError::Failed) && disk.last_error() == Some(fault)
}

// Returns whether files say why each of these calls was refused.
fn is_said(rt: &HostRuntime, name: &str) -> io::Result<bool> {
    fs::write(rt, name, "held")?;
    let mut disk = FileDisk::new(*rt);
    Ok(
        disk.last_error().is_none()
            && is_unread(
                &mut disk,
                "base_tests_none",
                DiskError::Absent,
                NO_SUCH_FILE,
            )
            && is_unread(&mut disk, ".", DiskError::Failed, FileFault::NotRegular)
            && disk.met_input().is_none()
            && disk.size(name) == Ok(4)
            && disk.last_error().is_none()
            && is_unmade(&mut disk, "./base_tests_said", FileFault::IsInput)
            && disk.met_input() == Some(name)
            && is_unmade(&mut disk, ".", IS_A_FOLDER),
    )
}

#[test]
fn files_say_why_they_refuse(rt: HostRuntime) {
    let name = "base_tests_said";
    assert!(rt; is_said(&rt, name).expect(&rt, "a file"));
    fs::remove_file(&rt, name).expect(&rt, "a file");
}

// Returns whether a port says that its number is taken.
fn is_taken(rt: &HostRuntime) -> Option<bool> {
    let mut port = TcpPort::new(*rt);
    port.listen(0).ok()?;
    let number = port.number()?;
    let mut other = TcpPort::new(*rt);
    let is_refused = other.listen(number) == Err(EndError::Failed);
    let is_said = other.last_error() == Some(ADDRESS_IN_USE);
    Some(is_refused && is_said && port.last_error().is_none())
}

#[test]
fn a_port_says_why_it_refuses(rt: HostRuntime) {
    assert!(rt; is_taken(&rt) == Some(true));
}
