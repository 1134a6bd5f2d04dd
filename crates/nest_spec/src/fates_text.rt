// Prints fates: a line for each packet.
ghost use Rattle.std.specs.Prelude.{◌≡◌, ◌+◌, ◌≤◌, ◌++◌, length, IfOk};
ghost use Rattle.nest_spec.specs.FateTexts.{fate_text, fate_line, fates_text};

use crate::{Fate, FateRow, PackedFate};
use std::alloc::Global;
use text_base::{Bytes, LineBuffer, OutOfMemory, PrintLine, print_lines};

/// Returns the text of `fates`: a line for each, in their order. Returns `OutOfMemory` where an allocation fails.
pub fn print_fates(alloc: Global, fates: &[FateRow]) -> Result<Bytes, OutOfMemory>
    ensures { IfOk result (λ text. text ≡ fates_text fates.now) }
{
    print_lines(alloc, b"", fates)
}

impl PrintLine for FateRow {
    ghost line = { fate_line };

    #[inline(always)]
    #[tactic(auto, using(text_base::proofs::TextLemmas::is_ended_line))]
    fn put_line(&self, out: &mut LineBuffer) {
        out.put_byte(b'\n');
        put_fate(out, self.fate);
        out.put(self.direction.between_spaces());
        out.put_decimal(u64::from(self.id));
    }
}

impl PrintLine for PackedFate {
    ghost line = { fate_line };

    fn put_line(&self, out: &mut LineBuffer) {
        self.row().put_line(out);
    }
}

/// Puts the text of `fate`, at most 39 bytes, in front of `out`. There must be room for 41 bytes.
#[inline(always)]
pub fn put_fate(out: &mut LineBuffer, fate: Fate)
    requires { length out.old + 41 ≤ 147456 }
    ensures bytes { out.new ≡ fate_text fate ++ out.old }
    ensures length { length out.new ≤ length out.old + 39 }
{
    match fate {
        Fate::Departed { moment } => {
            out.put_decimal(moment);
            out.put(b"departed ");
        }
        Fate::Dropped { shell, moment } => {
            out.put_decimal(moment);
            out.put_byte(b' ');
            out.put_decimal(u64::from(shell));
            out.put(b"dropped ");
        }
        Fate::Inside { shell } => {
            out.put_decimal(u64::from(shell));
            out.put(b"inside ");
        }
        Fate::Unsent => out.put(b"unsent"),
    }
}
