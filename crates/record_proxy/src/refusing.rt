// The end of a command line whose store can't be written, before anything of it is done.
ghost use Rattle.std.specs.Prelude.{◌≡◌, ◌⊎◌, IfOk, Some, map, string_bytes};
ghost use Rattle.std.specs.Option.{option_map};
ghost use Rattle.command_ends.specs.Answers.{Concludes, cause_in};
ghost use Rattle.command_ends.specs.declared.cause.Cause.TheVariants as causes;
ghost use Rattle.record_proxy.specs.Proxying.{store_named};

use crate::words::read_proxy;
use command_ends::{Cause, Ending, conclude};
use mm_base::Sink;
use std::alloc::{AllocError, Global};
use text_base::Text;

/// Returns the name of the file that the words after the program's name ask for by `--out`, or `None` if they have no
/// job. `AllocError` means out of memory.
pub fn store_name<'a>(alloc: Global, words: &'a [String]) -> Result<Option<&'a str>, AllocError>
    ensures { IfOk result (λ name. option_map (λ s. s.now) name ≡ store_named (map string_bytes words.now)) }
{
    match read_proxy(alloc, words)? {
        Ok(job) => Ok(Some(job.out)),
        Err(_) => Ok(None),
    }
}

// The file of this name can't be written.
fn write_fault(alloc: Global, name: &str) -> Cause
    ensures { (result ≡ causes.WriteFault name.now) ⊎ (result ≡ causes.OutOfMemory) }
{
    match Text::from_text(alloc, name) {
        Ok(name) => Cause::WriteFault(name),
        Err(_) => Cause::OutOfMemory,
    }
}

/// Ends a command line before anything of it is done, since the store can't be written to the file of this name:
/// `mm: write fault NAME` is printed on `out`.
///
/// The status is 7, or 9 if out of memory; then that is the cause, or a prefix of its line is printed.
pub fn refuse_store<O: Sink>(alloc: Global, name: &str, out: &mut O) -> Ending
    ensures status { (result.status ≡ 7) ⊎ (result.status ≡ 9) }
    ensures cause { (cause_in result.answer ≡ Some (causes.WriteFault name.now))
        ⊎ (cause_in result.answer ≡ Some causes.OutOfMemory) }
    ensures explained { Concludes (cause_in result.answer) (O.view out.old) (O.view out.new) result.status }
{
    let answer = Err(write_fault(alloc, name));
    let status = conclude(&answer, out);
    Ending { answer, status }
}
