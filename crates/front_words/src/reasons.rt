// Why the outside refused a call.
use command_ends::{Cause, Ending};
use mm_base::FileFault;
use piped_disk::PipedDisk;
use std::alloc::{Alloc, Global};
use std::fmt;
use std::fs::File;
use std::rt::Files;

/// Why the outside refused a call.
#[derive(Clone, Copy)]
pub enum Reason<'a> {
    /// The output is the file of this name, which was read in this run.
    IsInput(&'a str),
    /// The input is no regular file, or one that says that it is empty and isn't.
    NotRegular,
    /// The system's error of this number.
    System(u32),
}

impl<'a> Reason<'a> {
    /// Returns the reason that the system's error of this number is, if it is one.
    pub fn of_system(code: i32) -> Option<Self> {
        match u32::try_from(code) {
            Ok(code) => Some(Reason::System(code)),
            Err(_) => None,
        }
    }

    /// Returns whether the system doesn't permit the call.
    pub(crate) fn is_permission(self) -> bool {
        matches!(self, Reason::System(13))
    }

    // Returns why the last call of the files was refused, if that is known.
    fn of_disk<R: Files<File = File> + Alloc<A = Global> + Drop>(
        disk: &'a PipedDisk<R>,
    ) -> Option<Self> {
        match disk.last_error()? {
            FileFault::IsInput => Some(Reason::IsInput(disk.met_input().unwrap_or(""))),
            FileFault::NotRegular => Some(Reason::NotRegular),
            FileFault::System { code } => Reason::of_system(code),
            FileFault::Other => None,
        }
    }

    /// Returns why the outside refused the call for which a command line isn't done, if that is known; `net_error` is
    /// the number of the net's last error.
    pub fn of_ending<R: Files<File = File> + Alloc<A = Global> + Drop>(
        ending: &Ending,
        disk: &'a PipedDisk<R>,
        net_error: Option<i32>,
    ) -> Option<Self> {
        match &ending.answer {
            Err(Cause::ReadFault(_) | Cause::WriteFault(_)) => Reason::of_disk(disk),
            Err(Cause::NetFault) => Reason::of_system(net_error?),
            _ => None,
        }
    }
}

// Returns what the system's error of this number means.
fn system_text(code: u32) -> &'static str {
    match code {
        1 => "not permitted",
        2 => "no such file or folder",
        5 => "the device failed",
        13 => "permission denied",
        20 => "what should be a folder is none",
        21 => "it is a folder",
        24 => "too many open files",
        26 => "a program runs from it",
        27 => "it would be too large",
        28 => "no space is left",
        30 => "what it lies on can't be written",
        36 => "the name is too long",
        40 => "its links lead in a circle",
        98 => "the address is in use",
        99 => "there is no such address",
        104 => "the connection was reset",
        111 => "the connection was refused",
        122 => "the quota is used up",
        _ => "it failed",
    }
}

impl fmt::Display for Reason<'_> {
    fn fmt<W: fmt::Write>(&self, f: &mut fmt::Formatter<W>) -> fmt::Result {
        match self {
            Reason::IsInput(input) => write!(f, "it would overwrite the input {input}"),
            Reason::NotRegular => {
                write!(
                    f,
                    "it is no regular file, or says that it is empty and isn't"
                )
            }
            Reason::System(code) => {
                write!(f, "the system says: {} (error {code})", system_text(*code))
            }
        }
    }
}
