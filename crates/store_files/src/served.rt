// The line of a serving that is done.
ghost use Rattle.std.specs.Prelude.{◌≡◌, ◌++◌, OnOk, IfOk, IfErr};
ghost use Rattle.mm_base.specs.Sink.{CountsSinkFaults, sending};
ghost use Rattle.command_ends.specs.Stops.{StopsPrinting};
ghost use Rattle.store_files.specs.ServedLine.{counted, served_line};

use command_ends::{Cause, print};
use mm_base::Sink;
use replay_server::Served;
use std::alloc::Global;
use text_base::{Bytes, OutOfMemory, write_decimal};

// Adds words and a number.
fn write_count(text: &mut Bytes, words: &[u8], count: u32) -> Result<(), OutOfMemory>
    ensures { OnOk result (text.new ≡ text.old ++ counted words.now count) }
{
    text.append(words)?;
    write_decimal(text, u64::from(count))
}

// The line of the four numbers.
fn text_of(alloc: Global, served: Served) -> Result<Bytes, OutOfMemory>
    ensures { IfOk result (λ text. text ≡ served_line served) }
{
    let mut text = Bytes::new(alloc);
    write_count(&mut text, b"closed ", served.closed)?;
    write_count(&mut text, b" bad ", served.bad)?;
    write_count(&mut text, b" broken ", served.broken)?;
    write_count(&mut text, b" full ", served.full)?;
    text.append(b"\n")?;
    Ok(text)
}

/// Prints how many connections ended in each way.
pub fn print_served<O: Sink>(alloc: Global, served: Served, out: &mut O) -> Result<(), Cause>
    ensures ok { OnOk result ((O.view out.new).written ≡ sending (served_line served) (O.view out.old).written) }
    ensures stopped { IfErr result (λ cause. StopsPrinting (served_line served) (O.view out.old) (O.view out.new)
        cause) }
    ensures counts { CountsSinkFaults (O.view out.old) (O.view out.new) }
{
    let text = text_of(alloc, served)?;
    print(out, text.as_slice())
}
