// The bytes of packets that may still leave.
ghost use Rattle.std.specs.Prelude.{◌≡◌, None, ℕ, OnOk, Some, nat_eq};
ghost use Rattle.std.specs.Map.{update};
ghost use Rattle.live_relay.specs.inside.Pieces.{kept_at};

use std::alloc::Global;
use std::collections::HashMap;
use text_base::{Bytes, OutOfMemory};

// The bytes of the packets of a direction that may still leave it, by their numbers.
#[derive(Drop)]
pub(crate) struct Kept {
    pub pieces: HashMap<u32, Bytes>,
}

impl Kept {
    /// None.
    pub fn new(alloc: Global) -> Kept
        ensures { (n : ℕ) → kept_at result n ≡ None }
    {
        Kept {
            pieces: HashMap::new(alloc),
        }
    }

    /// Keeps the bytes of the packet of this number.
    pub fn keep(&mut self, number: u32, bytes: Bytes) -> Result<(), OutOfMemory>
        ensures { OnOk result ((n : ℕ) → kept_at self.new n
            ≡ update nat_eq (kept_at self.old) number (Some bytes) n) }
    {
        match self.pieces.insert(number, bytes) {
            Ok(_) => Ok(()),
            Err(_) => Err(OutOfMemory),
        }
    }

    /// Takes the bytes of the packet of this number, where they are kept. No others go.
    pub fn take(&mut self, number: u32) -> Option<Bytes>
        ensures found { result ≡ kept_at self.old number }
        ensures rest { (n : ℕ) → kept_at self.new n ≡ update nat_eq (kept_at self.old) number None n }
    {
        self.pieces.remove(&number)
    }
}
