// What stands under a name that isn't a file that can be read.
use std::fmt;
use std::fs::{self, Metadata};
use std::os::unix::fs::FileTypeExt;
use std::rt::Files;

// What isn't read as an input.
#[derive(Clone, Copy)]
enum Kind {
    Folder,
    Socket,
    Device,
    /// A file that says that it is empty and isn't.
    Understated,
}

impl Kind {
    fn of(metadata: &Metadata) -> Self {
        let found = metadata.file_type();
        if found.is_dir() {
            Kind::Folder
        } else if found.is_socket() {
            Kind::Socket
        } else if found.is_file() {
            Kind::Understated
        } else {
            Kind::Device
        }
    }
}

/// What stands under a name that isn't a file that can be read.
#[derive(Drop)]
pub(crate) struct Place<'a> {
    name: &'a str,
    kind: Kind,
}

impl<'a> Place<'a> {
    /// Returns what stands under a name, if the system says it.
    pub(crate) fn look<R: Files>(rt: &R, name: &'a str) -> Option<Self> {
        let metadata = fs::metadata(rt, name).ok()?;
        Some(Place {
            name,
            kind: Kind::of(&metadata),
        })
    }
}

impl fmt::Display for Place<'_> {
    fn fmt<W: fmt::Write>(&self, f: &mut fmt::Formatter<W>) -> fmt::Result {
        let name = self.name;
        match self.kind {
            Kind::Folder => writeln!(f, "  {name} is a folder; name a file in it"),
            Kind::Socket => writeln!(f, "  {name} is a socket; name a file"),
            Kind::Device => writeln!(f, "  {name} is a device; name a file (one may be empty)"),
            Kind::Understated => writeln!(
                f,
                "  {name} is a special file, which says that it has 0 bytes; cat {name} >FILE copies it"
            ),
        }
    }
}
