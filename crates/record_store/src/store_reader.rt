// Reads a store while its text comes piece by piece.
ghost use Rattle.std.specs.Prelude.{◌≡◌, ◌≢◌, ◌≤◌, ◌++◌, ℕ, List, [], Result, None, Err, OnOk, IfOk, IfErr, length, drop};
ghost use Rattle.record_store.specs.declared.record.Record.{Record as RecordValue};
ghost use Rattle.record_store.specs.declared.store_error.StoreError.{StoreError as ErrorValue};
ghost use Rattle.record_store.specs.declared.store_error.StoreError.TheVariants as errors;
ghost use Rattle.record_store.specs.StoreText.{StoreSays};

use crate::header::StoreForm;
use crate::reading::{read_form, read_rest, read_text};
use crate::record::Store;
use crate::record_reading::{FIRST_LINE, read_on};
use crate::server::from_place;
use crate::store_error::StoreError;
use std::alloc::Global;
use text_base::{OutOfMemory, PieceReader};

/// A store whose text is read piece by piece, wherever the text is cut. Records are made while it comes, and of the
/// text only what follows them is kept. A record that isn't whole is looked at again once twice as many bytes are kept.
#[derive(Drop)]
pub struct StoreReader {
    alloc: Global,
    /// The form of the text, once its first line was read.
    form: Option<StoreForm>,
    /// The records so far.
    store: Store,
    /// How many bytes of the text the first line and the records so far have.
    place: u64,
    /// The bytes of the text after those.
    kept: Vec<u8>,
    /// How many bytes are kept before they are looked at again.
    wanted: usize,
    /// The first refusal.
    refused: Option<StoreError>,
}

// Adds `piece` at the end.
fn add(bytes: &mut Vec<u8>, piece: &[u8]) -> Result<(), OutOfMemory>
    ensures { OnOk result (bytes.new.items ≡ bytes.old.items ++ piece.now) }
{
    bytes.extend_from_slice(piece)?;
    Ok(())
}

// Returns a copy of the bytes after the first `count`.
fn copy_after(alloc: Global, bytes: &[u8], count: usize) -> Result<Vec<u8>, OutOfMemory>
    requires { count ≤ length bytes.now }
    ensures { IfOk result (λ left. left.items ≡ drop count bytes.now) }
{
    Ok(Vec::from_slice(alloc, from_place(bytes, count))?)
}

impl StoreReader {
    ghost use Rattle.record_store.specs.StoreReaders.{HasRead};

    /// Makes a reader that has read nothing. It takes no memory.
    pub fn new(alloc: Global) -> Self
        ensures { HasRead [] result }
    {
        StoreReader {
            alloc,
            form: None,
            store: Store::new(alloc),
            place: 0,
            kept: Vec::new(alloc),
            wanted: FIRST_LINE,
            refused: None,
        }
    }

    // Reads the first line, if it wasn't read and is there.
    fn begin(&mut self) -> Result<(), StoreError>
        requires { self.old.refused ≡ None }
        ensures read { OnOk result ((text : List ℕ) → HasRead text self.old → HasRead text self.new) }
        ensures refused { IfErr result (λ e. (text more : List ℕ) → HasRead text self.old
            → StoreSays (text ++ more) (Err e)) }
        ensures going { self.new.refused ≡ None }
    {
        if self.form.is_some() || self.kept.len() < FIRST_LINE {
            return Ok(());
        }
        let Some(form) = read_form(self.kept.as_slice()) else {
            return Err(StoreError::BadMagic);
        };
        let left = copy_after(self.alloc, self.kept.as_slice(), FIRST_LINE)?;
        self.form = Some(form);
        self.place = FIRST_LINE as u64;
        self.kept = left;
        Ok(())
    }

    // Reads the records that are there, where the first line was read.
    fn go_on(&mut self) -> Result<(), StoreError>
        requires { self.old.refused ≡ None }
        ensures read { OnOk result ((text : List ℕ) → HasRead text self.old → HasRead text self.new) }
        ensures refused { IfErr result (λ e. (text more : List ℕ) → HasRead text self.old
            → StoreSays (text ++ more) (Err e)) }
    {
        let Some(form) = self.form else {
            return Ok(());
        };
        let count = read_on(
            self.alloc,
            form,
            self.place,
            &mut self.store,
            self.kept.as_slice(),
            false,
        )?;
        let left = copy_after(self.alloc, self.kept.as_slice(), count)?;
        self.place += count as u64;
        self.wanted = left.len().saturating_mul(2);
        self.kept = left;
        Ok(())
    }

    // Adds a piece, and reads what is there.
    fn take(&mut self, piece: &[u8]) -> Result<(), StoreError>
        requires { self.old.refused ≡ None }
        ensures read { OnOk result ((text : List ℕ) → HasRead text self.old → HasRead (text ++ piece.now) self.new) }
        ensures refused { IfErr result (λ e. (text more : List ℕ) → HasRead text self.old
            → StoreSays ((text ++ piece.now) ++ more) (Err e)) }
    {
        add(&mut self.kept, piece)?;
        if self.kept.len() < self.wanted {
            return Ok(());
        }
        self.begin()?;
        self.go_on()
    }

    /// Returns the store of the text that was read, or the first refusal, as `read_store` returns them.
    pub fn finish(self) -> Result<Store, StoreError>
        ensures says { (text : List ℕ) → HasRead text self → StoreSays text result }
        ensures exact { (text : List ℕ) (other : Result (List RecordValue) ErrorValue) → HasRead text self
            → StoreSays text other → other ≢ Err errors.OutOfMemory → result ≢ Err errors.OutOfMemory
            → result ≡ other }
    {
        let StoreReader {
            alloc,
            form,
            store,
            place,
            kept,
            refused,
            ..
        } = self;
        if let Some(error) = refused {
            return Err(error);
        }
        match form {
            Some(form) => read_rest(alloc, form, place, store, kept.as_slice()),
            None => read_text(alloc, kept.as_slice()),
        }
    }
}

impl PieceReader for StoreReader {
    ghost use Rattle.record_store.specs.StoreReaders.{HasRead};

    ghost has_read = { HasRead };

    /// Reads the next piece of the text. After a refusal pieces are passed over.
    fn push(&mut self, piece: &[u8]) {
        if self.refused.is_some() {
            return;
        }
        if let Err(error) = self.take(piece) {
            self.refused = Some(error);
        }
    }
}
