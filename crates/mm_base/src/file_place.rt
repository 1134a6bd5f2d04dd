// A place in a file that is read in pieces.

/// A place in a file: byte `at` of the file `name`, whose first `size` bytes are read.
#[derive(Clone, Copy)]
pub struct FilePlace<'a> {
    /// The name of the file.
    pub name: &'a str,
    /// The first byte that wasn't read yet.
    pub at: u64,
    /// How many bytes of the file count. Bytes from there on aren't read.
    pub size: u64,
}
