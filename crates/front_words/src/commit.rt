// The commit of a program's sources.
use std::alloc::{Alloc, Global};
use std::os::unix::fs::MetadataExt;
use std::rt::Files;
use std::{env, fmt, fs};

// Where the commit is noted, from the program's folder: where ./install puts it, and where ./build does.
const NOTES: [&str; 2] = ["../lib/mm/commit", "commit"];

// How many hexadecimal digits name a commit.
const DIGITS: usize = 40;

/// The commit of a program's sources.
#[derive(Drop)]
pub(crate) struct Commit {
    note: String,
}

// Returns whether a text is the name of a commit.
fn is_commit(text: &str) -> bool {
    text.len() == DIGITS && text.bytes().all(|byte| byte.is_ascii_hexdigit())
}

// Returns the text of a file that is no older than the program.
fn read_note<R: Files + Alloc<A = Global>>(rt: &R, program: &str, note: &str) -> Option<String> {
    let built = fs::metadata(rt, program).ok()?;
    let noted = fs::metadata(rt, note).ok()?;
    if !noted.is_file() || noted.mtime() < built.mtime() {
        return None;
    }
    fs::read_to_string(rt, note).ok()
}

impl Commit {
    /// Returns the commit of which the program that runs was built, if a file in its folder, or in `../lib/mm` from
    /// there, names one and is no older than the program.
    pub(crate) fn read<R: Files + Alloc<A = Global>>(rt: &R) -> Option<Self> {
        let program = env::current_exe(rt).ok()?;
        let (folder, _) = program.as_str().rsplit_once('/')?;
        for name in NOTES {
            let note = format!(in rt.alloc(); "{folder}/{name}").ok()?;
            if let Some(note) = read_note(rt, program.as_str(), note.as_str())
                && is_commit(note.as_str().trim_end())
            {
                return Some(Commit { note });
            }
        }
        None
    }
}

impl fmt::Display for Commit {
    fn fmt<W: fmt::Write>(&self, f: &mut fmt::Formatter<W>) -> fmt::Result {
        writeln!(f, "commit {}", self.note.as_str().trim_end())
    }
}
