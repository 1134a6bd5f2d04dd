// What a serving answers from, read for its notes alone.
use mm_base::Disk;
use option_words::{Command, read_given, read_port};
use record_store::Store;
use std::alloc::Global;
use store_files::load_store;

/// The records of a serving, and the port that its requests are asked at.
#[derive(Drop)]
pub struct Recorded {
    pub store: Store,
    pub site: u16,
}

/// Returns what the words of a command line serve, if they are those of `replay` and its store can be read.
pub fn read_recorded<D: Disk>(alloc: Global, words: &[String], disk: &mut D) -> Option<Recorded> {
    let [command, words @ ..] = words else {
        return None;
    };
    if command.as_str() != Command::Replay.name() {
        return None;
    }
    let given = read_given(alloc, Command::Replay, words).ok()??;
    let [store, port, connections, site_port, _] = given.as_slice() else {
        return None;
    };
    let (port, _) = (read_port((*port)?)?, (*connections)?);
    let site = match site_port {
        Some(text) => read_port(*text)?,
        None => port,
    };
    let store = load_store(alloc, disk, (*store)?).ok()?;
    Some(Recorded { store, site })
}
