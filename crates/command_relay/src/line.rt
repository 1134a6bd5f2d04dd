// The line of a relay that is done.
ghost use Rattle.std.specs.Prelude.{◌≡◌, OnOk, IfOk, IfErr};
ghost use Rattle.mm_base.specs.Sink.{CountsSinkFaults, sending};
ghost use Rattle.command_ends.specs.Stops.{StopsPrinting};
ghost use Rattle.command_relay.specs.Lines.{end_words, relay_line};

use command_ends::{Cause, print};
use live_relay::{RelayEnd, RelayResult};
use mm_base::Sink;
use std::alloc::Global;
use text_base::{Bytes, OutOfMemory, write_decimal};

// The words of an end.
fn end_words(end: RelayEnd) -> &'static [u8]
    ensures { result.now ≡ end_words end }
{
    match end {
        RelayEnd::Horizon => b" end horizon\n",
        RelayEnd::Turns => b" end turns\n",
        RelayEnd::User => b" end horizon\n",
    }
}

// The line.
fn text_of(alloc: Global, relayed: &RelayResult) -> Result<Bytes, OutOfMemory>
    ensures { IfOk result (λ text. text ≡ relay_line relayed.now) }
{
    let mut text = Bytes::new(alloc);
    text.append(b"packets ")?;
    write_decimal(&mut text, relayed.rows.as_slice().len() as u64)?;
    text.append(b" refused ")?;
    write_decimal(&mut text, u64::from(relayed.refused))?;
    text.append(end_words(relayed.end))?;
    Ok(text)
}

/// Prints how many packets passed, how many datagrams were refused, and why the relay took no further turn.
pub(crate) fn print_relayed<O: Sink>(
    alloc: Global,
    relayed: &RelayResult,
    out: &mut O,
) -> Result<(), Cause>
    ensures ok { OnOk result ((O.view out.new).written ≡ sending (relay_line relayed.now) (O.view out.old).written) }
    ensures stopped { IfErr result (λ cause. StopsPrinting (relay_line relayed.now) (O.view out.old) (O.view out.new)
        cause) }
    ensures counts { CountsSinkFaults (O.view out.old) (O.view out.new) }
{
    let text = text_of(alloc, relayed)?;
    print(out, text.as_slice())
}
