// Stores that are read from files.
ghost use Rattle.std.specs.Prelude.{ℕ, Bool, true, List, Ok, Err, IfOk, IfErr};
ghost use Rattle.mm_base.specs.Disk.{OnlyReads};
ghost use Rattle.record_store.specs.CutText.{CutSays, SaysAs};
ghost use Rattle.record_store.specs.StoreText.{StoreSays};
ghost use Rattle.record_store.specs.StoreReaders.{HasRead};
ghost use Rattle.command_ends.specs.Readings.{Done};
ghost use Rattle.command_ends.specs.Stops.{IsInput, StopsAtFile, StopsReading};
ghost use Rattle.command_ends.specs.inside.Stops.{RefusesBy};
ghost use Rattle.store_files.specs.Stores.{StoreVerdict, reading_store, reading_store_as};

use command_ends::{Cause, Refusal, input_size, read_input, read_pieces};
use mm_base::Disk;
use record_store::{Store, StoreError, StoreReader, read_cut_store};
use std::alloc::Global;
use text_base::Text;

// Returns the cause of a store's text, in the file `name`, that isn't accepted.
fn store_cause(name: Text, error: StoreError) -> Cause
    ensures { (may : Bool) (text : List ℕ) → SaysAs may text (Err error)
        → RefusesBy (StoreVerdict may name text) result }
{
    match error {
        StoreError::OutOfMemory => Cause::OutOfMemory,
        _ => Cause::Refused(Refusal::BadInput {
            name,
            number: error.number(),
            place: error.place(),
        }),
    }
}

// Reads a store's text from the file `name`, in pieces.
fn read_store_file<D: Disk>(alloc: Global, disk: &mut D, name: &str) -> Result<StoreReader, Cause>
    ensures read { IfOk result (λ reader. ((text : List ℕ) × IsInput (D.view disk.old).files name.now text
        × HasRead text reader)) }
    ensures stopped { IfErr result (λ cause. StopsAtFile name.now (D.view disk.old) (D.view disk.new) cause) }
    ensures only_reads { OnlyReads (D.view disk.old) (D.view disk.new) }
{
    let size = input_size(alloc, disk, name)?;
    let mut reader = StoreReader::new(alloc);
    read_pieces(alloc, disk, name, size, &mut reader)?;
    Ok(reader)
}

/// Returns the store in the file `name`. The cause of what can't be read is its refusal, a fault of the disk, or out of
/// memory.
pub fn load_store<D: Disk>(alloc: Global, disk: &mut D, name: &str) -> Result<Store, Cause>
    ensures found { IfOk result (λ store. ((text : List ℕ) × IsInput (D.view disk.old).files name.now text
        × StoreSays text (Ok store))) }
    ensures stopped { IfErr result (λ cause. StopsReading (reading_store name.now Done) (D.view disk.old)
        (D.view disk.new) cause) }
    ensures only_reads { OnlyReads (D.view disk.old) (D.view disk.new) }
{
    let reader = read_store_file(alloc, disk, name)?;
    match reader.finish() {
        Ok(store) => Ok(store),
        Err(error) => Err(store_cause(Text::from_text(alloc, name)?, error)),
    }
}

// Returns the store in the file `name`, without a last record that the file's end cuts.
fn load_uncut<D: Disk>(alloc: Global, disk: &mut D, name: &str) -> Result<Store, Cause>
    ensures found { IfOk result (λ store. ((text : List ℕ) × IsInput (D.view disk.old).files name.now text
        × CutSays text (Ok store))) }
    ensures stopped { IfErr result (λ cause. StopsReading (reading_store_as true name.now Done) (D.view disk.old)
        (D.view disk.new) cause) }
    ensures only_reads { OnlyReads (D.view disk.old) (D.view disk.new) }
{
    let text = read_input(alloc, disk, name)?;
    match read_cut_store(alloc, text.as_slice()) {
        Ok(store) => Ok(store),
        Err(error) => Err(store_cause(Text::from_text(alloc, name)?, error)),
    }
}

/// Returns the store in the file `name` as `load_store` does, but if `may_end_cut`, leaves out a last record within
/// which the file ends.
pub fn load_store_as<D: Disk>(
    alloc: Global,
    disk: &mut D,
    name: &str,
    may_end_cut: bool,
) -> Result<Store, Cause>
    ensures found { IfOk result (λ store. ((text : List ℕ) × IsInput (D.view disk.old).files name.now text
        × SaysAs may_end_cut text (Ok store))) }
    ensures stopped { IfErr result (λ cause. StopsReading (reading_store_as may_end_cut name.now Done) (D.view disk.old)
        (D.view disk.new) cause) }
    ensures only_reads { OnlyReads (D.view disk.old) (D.view disk.new) }
{
    if may_end_cut {
        load_uncut(alloc, disk, name)
    } else {
        load_store(alloc, disk, name)
    }
}
