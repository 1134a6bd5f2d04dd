// The fates of a merge's packets, each printed with its sender and line, in the table too.
ghost use Rattle.std.specs.Prelude.{◌≡◌, ◌+◌, ◌<◌, ◌≤◌, ◌++◌, IfOk, decimal, length, map};
ghost use Rattle.command_merge.specs.FateLines.{line_of, merged_entry, merged_fate_line, sender_of};

use nest_spec::{FateRow, PackedFate, TableEntry, TableFate, put_fate};
use std::alloc::Global;
use text_base::{LineBuffer, OutOfMemory, PrintLine};

// The fate of a packet of a merge. Its number in the merge tells its sender and its line.
#[derive(Clone, Copy, PartialEq, Eq)]
pub(crate) struct SenderFate(pub FateRow);

impl SenderFate {
    // Returns the number of the sender, counted from 1.
    fn sender(&self) -> u32
        ensures number { result ≡ sender_of self.now.0.id }
        ensures few { result ≤ 16 }
    {
        self.0.id.saturating_sub(1) % 16 + 1
    }

    // Returns the line in the sender's schedule, counted from 1.
    fn line(&self) -> u32
        ensures { result ≡ line_of self.now.0.id }
    {
        self.0.id.saturating_sub(1) / 16 + 1
    }
}

impl TableFate for SenderFate {
    ghost entry_of = { λ fate. merged_entry fate.0 };

    fn table_entry(&self) -> TableEntry {
        TableEntry {
            packet: self.line(),
            sender: self.sender(),
            direction: self.0.direction,
            fate: self.0.fate,
        }
    }
}

impl PrintLine for SenderFate {
    ghost line = { λ fate. merged_fate_line fate.0 };

    // A line is put from its last byte to its first.
    #[tactic(auto, using(text_base::proofs::TextLemmas::is_ended_line))]
    fn put_line(&self, out: &mut LineBuffer) {
        out.put_byte(b'\n');
        put_fate(out, self.0.fate);
        out.put(self.0.direction.between_spaces());
        out.put_decimal(u64::from(self.line()));
        out.put_byte(b' ');
        put_sender(out, self.sender());
    }
}

// Puts the number of a sender, one or two digits, in front of `out`.
fn put_sender(out: &mut LineBuffer, sender: u32)
    requires short { sender < 100 }
    requires room { length out.old + 2 ≤ 147456 }
    ensures bytes { out.new ≡ decimal sender ++ out.old }
    ensures length { length out.new ≤ length out.old + 2 }
{
    out.put_byte(b'0' + (sender % 10) as u8);
    if sender >= 10 {
        out.put_byte(b'0' + (sender / 10) as u8);
    }
}

// Returns the fates of a merge's packets, in their order.
pub(crate) fn sender_fates(
    alloc: Global,
    fates: &[PackedFate],
) -> Result<Vec<SenderFate>, OutOfMemory>
    ensures { IfOk result (λ list. map (λ fate. fate.0) list.items ≡ fates.now) }
{
    let mut list = Vec::with_capacity(alloc, fates.len())?;
    for fate in fates {
        list.push(SenderFate(fate.row()))?;
    }
    Ok(list)
}
