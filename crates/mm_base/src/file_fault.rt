// Why the real files refused a call, for words to a user.
use std::io::{self, ErrorKind};

/// Why a call of the real files was refused.
#[derive(Clone, Copy, Debug, PartialEq, Eq)]
pub enum FileFault {
    /// The output is a file that was read in this run.
    IsInput,
    /// The input is no regular file, or one that says that it is empty and isn't.
    NotRegular,
    /// The system's error of this number.
    System { code: i32 },
    /// Another error: memory was wanting, or the name holds a byte 0, which no file's name does.
    Other,
}

impl FileFault {
    /// What an error says.
    pub(crate) fn of(error: &io::Error) -> Self {
        match (error.raw_os_error(), error.kind()) {
            (Some(code), _) => FileFault::System { code },
            (None, ErrorKind::AlreadyExists) => FileFault::IsInput,
            (None, ErrorKind::Unsupported) => FileFault::NotRegular,
            (None, _) => FileFault::Other,
        }
    }
}
