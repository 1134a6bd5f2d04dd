// Reads stores from their text.
ghost use Rattle.std.specs.Prelude.{◌≡◌, ◌≢◌, List, Result, Some, Err, MatchResult, All, length};
ghost use Rattle.record_store.specs.declared.store_error.StoreError.{StoreError as ErrorValue};
ghost use Rattle.record_store.specs.declared.store_error.StoreError.TheVariants as errors;
ghost use Rattle.record_store.specs.declared.header.StoreForm.TheVariants as forms;
ghost use Rattle.record_store.specs.declared.record.Record.{Record as RecordValue};
ghost use Rattle.record_store.specs.Records.{IsRecord};
ghost use Rattle.record_store.specs.StoreText.{StoreSays, store_text, form_of, Reaches};

use crate::header::StoreForm;
use crate::record::Store;
use crate::record_reading::{FIRST_LINE, read_on};
use crate::server::from_place;
use crate::store_error::StoreError;
use std::alloc::Global;

/// Returns the store of a text in form 2, or in form 1, whose records have port 0.
///
/// Returns the first refusal in the order of the records, or `OutOfMemory` where an allocation fails. The text that
/// `print_store` makes of a store is never refused.
pub fn read_store(alloc: Global, text: &[u8]) -> Result<Store, StoreError>
    ensures says { StoreSays text.now result }
    ensures exact { (other : Result (List RecordValue) ErrorValue) → StoreSays text.now other
        → other ≢ Err errors.OutOfMemory → result ≢ Err errors.OutOfMemory → result ≡ other }
    ensures back { (rs : List RecordValue) → All IsRecord rs → text.now ≡ store_text forms.Two rs
        → MatchResult result (λ s. s ≡ rs) (λ e. e ≡ errors.OutOfMemory) }
{
    read_text(alloc, text)
}

// Reads a text.
pub(crate) fn read_text(alloc: Global, text: &[u8]) -> Result<Store, StoreError>
    ensures { StoreSays text.now result }
{
    match read_form(text) {
        Some(form) => read_records(alloc, form, text),
        None => Err(StoreError::BadMagic),
    }
}

// Reads the records of a text of the form.
fn read_records(alloc: Global, form: StoreForm, text: &[u8]) -> Result<Store, StoreError>
    requires { form_of text.now ≡ Some form }
    ensures { StoreSays text.now result }
{
    let bytes = from_place(text, FIRST_LINE);
    read_rest(alloc, form, FIRST_LINE as u64, Store::new(alloc), bytes)
}

// Reads the rest of a text of the form, whose records so far are in `store`. The rest begins at `place`.
pub(crate) fn read_rest(
    alloc: Global,
    form: StoreForm,
    place: u64,
    store: Store,
    bytes: &[u8],
) -> Result<Store, StoreError>
    ensures { (text : _) → Reaches form text store bytes.now → place ≡ length (store_text form store)
        → StoreSays text result }
{
    let mut store = store;
    read_on(alloc, form, place, &mut store, bytes, true)?;
    Ok(store)
}

// Returns the form that the first 10 bytes state, or `None` where they state none.
pub(crate) fn read_form(text: &[u8]) -> Option<StoreForm>
    ensures { result ≡ form_of text.now }
{
    let (first, _) = text.split_at(FIRST_LINE.min(text.len()));
    if first == b"MMSTORE 2\n".as_slice() {
        Some(StoreForm::Two)
    } else if first == b"MMSTORE 1\n".as_slice() {
        Some(StoreForm::One)
    } else {
        None
    }
}
