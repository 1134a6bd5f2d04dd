// Reads stores whose end may cut the last record.
ghost use Rattle.std.specs.Prelude.{◌≡◌, ◌≢◌, ℕ, List, Result, Err, take};
ghost use Rattle.record_store.specs.CutText.{CutSays};
ghost use Rattle.record_store.specs.StoreText.{StoreSays};
ghost use Rattle.record_store.specs.declared.record.Record.{Record as RecordValue};
ghost use Rattle.record_store.specs.declared.store_error.StoreError.{StoreError as ErrorValue};
ghost use Rattle.record_store.specs.declared.store_error.StoreError.TheVariants as errors;

use crate::reading::read_text;
use crate::record::Store;
use crate::store_error::StoreError;
use std::alloc::Global;

// Returns the first `count` bytes, or all if there are fewer.
fn first_bytes(text: &[u8], count: u64) -> &[u8]
    ensures { result.now ≡ take count text.now }
{
    text.split_at((count as usize).min(text.len())).0
}

// Returns the store of the text before the record at `place`, which the text's end cuts.
fn read_before(alloc: Global, text: &[u8], place: u64) -> Result<Store, StoreError>
    requires { StoreSays text.now (Err (errors.Truncated place)) }
    ensures { CutSays text.now result }
{
    read_text(alloc, first_bytes(text, place))
}

// Returns the store of a text that is refused for this error, if only its last record is cut.
fn leave_out(alloc: Global, text: &[u8], error: StoreError) -> Result<Store, StoreError>
    requires { StoreSays text.now (Err error) }
    ensures { CutSays text.now result }
{
    match error {
        StoreError::Truncated { place } => read_before(alloc, text, place),
        _ => Err(error),
    }
}

// Reads a text, and leaves out a last record that is cut.
fn read_uncut(alloc: Global, text: &[u8]) -> Result<Store, StoreError>
    ensures { CutSays text.now result }
{
    match read_text(alloc, text) {
        Ok(store) => Ok(store),
        Err(error) => leave_out(alloc, text, error),
    }
}

/// Returns the store of a text as `read_store` does, but leaves out the last record if the text ends within it.
///
/// Returns the first other refusal in the order of the records, or `OutOfMemory` if an allocation fails. A text that
/// ends within its first line is refused.
pub fn read_cut_store(alloc: Global, text: &[u8]) -> Result<Store, StoreError>
    ensures says { CutSays text.now result }
    ensures exact { (other : Result (List RecordValue) ErrorValue) → CutSays text.now other
        → other ≢ Err errors.OutOfMemory → result ≢ Err errors.OutOfMemory → result ≡ other }
{
    read_uncut(alloc, text)
}
