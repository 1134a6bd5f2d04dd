// What `migrate --cut` leaves out, read anew for the standard error alone.
use command_ends::{Cause, Refusal};
use mm_base::Disk;
use option_words::{Command, read_given};
use std::alloc::Global;
use std::fmt;
use store_files::load_store;
use text_base::Text;

// The number of the refusal of a store that ends within a record.
const CUT_OFF: u32 = 3;

/// A store that ends within its last record.
#[derive(Drop)]
pub struct CutStore {
    name: Text,
    /// How many bytes stand before that record.
    place: u64,
}

impl fmt::Display for CutStore {
    fn fmt<W: fmt::Write>(&self, f: &mut fmt::Formatter<W>) -> fmt::Result {
        let CutStore { name, place } = self;
        let name = name.as_str();
        write!(
            f,
            "{name} ends within the record at byte {place}, which is left out"
        )
    }
}

/// Returns the store that the words of a command line cut, if they are those of `migrate` with `--cut` and the store
/// ends within a record.
pub fn read_cut<D: Disk>(alloc: Global, words: &[String], disk: &mut D) -> Option<CutStore> {
    let [command, words @ ..] = words else {
        return None;
    };
    if command.as_str() != Command::Migrate.name() {
        return None;
    }
    let given = read_given(alloc, Command::Migrate, words).ok()??;
    let [Some(store), _, Some(_)] = given.as_slice() else {
        return None;
    };
    match load_store(alloc, disk, *store) {
        Err(
            Cause::Refused(
                Refusal::BadInput {
                    name,
                    number,
                    place,
                },
            ),
        ) if number == CUT_OFF => Some(CutStore { name, place }),
        _ => None,
    }
}
