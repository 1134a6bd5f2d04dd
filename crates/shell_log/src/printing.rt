// Logs written as text.
ghost use Rattle.std.specs.Prelude.{◌≡◌, ◌+◌, ◌≤◌, ◌++◌, ◌∷◌, [], length, decimal, IfOk};
ghost use Rattle.shell_log.specs.LogText.{line_of, log_text};

use crate::{Entry, Log};
use std::alloc::Global;
use text_base::{Bytes, LineBuffer, OutOfMemory, PrintLine, print_lines};

/// The first line of the text of a log, with its line feed (mm-link's log).
pub const HEADER: &[u8] = b"# base timestamp: 0\n";

// The bytes of each opportunity of a trace that names moments alone, whose digits `put_opportunity` has as a text.
const PACKET_BYTES: u32 = 1504;

/// The text of a log: `# base timestamp: 0`, then a line for each entry, each with its line feed (mm-link's log).
pub fn print_log(alloc: Global, log: &Log) -> Result<Bytes, OutOfMemory>
    ensures { IfOk result (λ text. text ≡ log_text log.now.entries) }
{
    print_lines(alloc, HEADER, log.entries())
}

impl PrintLine for Entry {
    ghost line = { λ e. line_of e ++ 10 ∷ [] };

    #[tactic(auto, using(text_base::proofs::TextLemmas::is_ended_line))]
    fn put_line(&self, out: &mut LineBuffer) {
        match *self {
            Entry::Arrival { size, .. } => put_word(out, u64::from(size), b" + "),
            Entry::Opportunity { bytes, .. } => put_opportunity(out, bytes),
            Entry::Departure { size, delay, .. } => put_pair(out, u64::from(size), delay, b" - "),
            Entry::Drop { packets, bytes, .. } => put_pair(out, packets, bytes, b" d "),
        }
        out.put_moment(self.moment());
    }
}

// Puts before `out` the end of an opportunity's line: its sign, its bytes and a line feed.
#[inline(always)]
fn put_opportunity(out: &mut LineBuffer, bytes: u32)
    requires { length out.old + 24 ≤ 147456 }
    ensures bytes { out.new ≡ 32 ∷ 35 ∷ 32 ∷ (decimal bytes ++ 10 ∷ out.old) }
    ensures length { length out.new ≤ length out.old + 24 }
{
    if bytes == PACKET_BYTES {
        out.put(b" # 1504\n");
    } else {
        put_word(out, u64::from(bytes), b" # ");
    }
}

// Puts before `out` the end of a line: `sign`, a number and a line feed.
#[inline(always)]
fn put_word(out: &mut LineBuffer, number: u64, sign: &[u8])
    requires { length sign.now + length out.old + 21 ≤ 147456 }
    ensures bytes { out.new ≡ sign.now ++ (decimal number ++ 10 ∷ out.old) }
    ensures length { length out.new ≤ length sign.now + length out.old + 21 }
{
    out.put_byte(b'\n');
    out.put_decimal(number);
    out.put(sign);
}

// Puts before `out` the end of a line: `sign`, two numbers with a space between them, and a line feed.
#[inline(always)]
fn put_pair(out: &mut LineBuffer, first: u64, second: u64, sign: &[u8])
    requires { length sign.now + length out.old + 42 ≤ 147456 }
    ensures bytes { out.new ≡ sign.now ++ (decimal first ++ 32 ∷ (decimal second ++ 10 ∷ out.old)) }
    ensures length { length out.new ≤ length sign.now + length out.old + 42 }
{
    out.put_byte(b'\n');
    out.put_decimal(second);
    out.put_byte(b' ');
    out.put_decimal(first);
    out.put(sign);
}
