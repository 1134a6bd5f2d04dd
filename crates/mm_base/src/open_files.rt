// Files of the machine that are kept open, by name.
ghost use Rattle.std.specs.Prelude.{◌<◌, length, IfSome};

use std::alloc::Global;
use std::fs::File;
use text_base::{OutOfMemory, Text};

#[derive(Drop)]
struct OpenFile {
    name: Text,
    file: File,
}

/// Files that are open, each under the name by which it was opened. A name has one file.
#[derive(Drop)]
pub struct OpenFiles {
    alloc: Global,
    files: Vec<OpenFile>,
}

impl OpenFiles {
    /// No file.
    pub fn new(alloc: Global) -> Self {
        OpenFiles {
            alloc,
            files: Vec::new(alloc),
        }
    }

    fn place_of(&self, name: &str) -> Option<usize>
        ensures { IfSome result (λ place. place < length self.now.files.items) }
    {
        for (place, open) in self.files.iter().enumerate() {
            if open.name.as_str() == name {
                return Some(place);
            }
        }
        None
    }

    /// The file that is open under this name.
    pub fn find(&self, name: &str) -> Option<&File> {
        let place = self.place_of(name)?;
        Some(&self.files[place].file)
    }

    /// Keeps a file open under this name, in place of the one that was. If an allocation fails it returns
    /// `OutOfMemory`, and the file is closed.
    pub fn keep(&mut self, name: &str, file: File) -> Result<(), OutOfMemory> {
        match self.place_of(name) {
            Some(place) => self.files[place].file = file,
            None => {
                let name = Text::from_text(self.alloc, name)?;
                self.files.push(OpenFile { name, file })?;
            }
        }
        Ok(())
    }
}
