// Whether a file can be written, by a look that creates and changes nothing.
use libc::{PATH_MAX, W_OK, X_OK, access};
use std::fs::{self, OpenOptions};
use std::io::{self, ErrorKind};
use std::rt::Files;

// Opens a file to add to its end, as it is opened to be written, but makes none.
fn open_end<R: Files>(rt: &R, name: &str) -> io::Result<()> {
    let mut options = OpenOptions::new();
    options.append(true);
    options.open(rt, name)?;
    Ok(())
}

// The folder in which a file of this name is made.
fn folder_of(name: &str) -> &str {
    match name.rsplit_once('/') {
        Some(("", _)) => "/",
        Some((folder, _)) => folder,
        None => ".",
    }
}

// Looks whether files can be made in a folder.
fn look_at_folder(folder: &str) -> io::Result<()> {
    let bytes = folder.as_bytes();
    let mut path = [0u8; PATH_MAX];
    if bytes.len() >= PATH_MAX {
        return Ok(());
    }
    path[..bytes.len()].copy_from_slice(bytes);
    path[PATH_MAX - 1] = 0;
    if unsafe { access(&path, W_OK | X_OK) } != 0 {
        return Err(io::Error::from_raw_os_error(os::errno()));
    }
    Ok(())
}

/// Looks whether the file of this name can be written. Nothing is created or changed.
///
/// An error is that with which the system would refuse to open it. A pipe, a device or a link that leads nowhere isn't
/// opened and is no error: to open a pipe that nobody reads would wait.
pub fn look_at<R: Files>(rt: &R, name: &str) -> io::Result<()> {
    match fs::metadata(rt, name) {
        Ok(found) if found.is_file() || found.is_dir() => open_end(rt, name),
        Ok(_) => Ok(()),
        Err(error) if error.kind() != ErrorKind::NotFound => Err(error),
        Err(_) if fs::symlink_metadata(rt, name).is_ok() => Ok(()),
        Err(_) => look_at_folder(folder_of(name)),
    }
}
