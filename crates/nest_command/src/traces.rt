// The traces of a nest, read from their files in order.
ghost use Rattle.std.specs.Prelude.{◌≡◌, ◌≢◌, ℕ, List, length, None, Some, IfSome, IfOk, IfErr, MatchResult};
ghost use Rattle.mm_base.specs.Disk.{OnlyReads};
ghost use Rattle.trace_reader.specs.Reading.{trace_fault};
ghost use Rattle.trace_reader.specs.TraceText.{IsTraceText};
ghost use Rattle.command_ends.specs.Readings.{Done};
ghost use Rattle.command_ends.specs.Stops.{RefusesText, StopsReading};
ghost use Rattle.nest_command.specs.Inputs.{reading_trace, reading_traces, trace_refusal};
ghost use Rattle.nest_command.specs.Loaded.{HasTrace, HaveTraces};

use command_ends::{Cause, Limit, Refusal, read_input};
use mm_base::Disk;
use std::alloc::Global;
use text_base::{Bytes, Text};
use trace_reader::{Trace, TraceError, read_trace};

// A trace that was read, with its file's name and text.
#[derive(Drop)]
struct TraceFile<'a> {
    name: &'a Text,
    text: Bytes,
    trace: Trace,
}

// Returns whether a file was read and has this name.
fn has_name(file: &Option<TraceFile<'_>>, name: &Text) -> bool {
    match file {
        Some(file) => *file.name == *name,
        None => false,
    }
}

// Returns the cause of a trace's text, in the file `name`, that isn't accepted.
fn trace_cause(name: Text, error: TraceError) -> Cause
    ensures { (text : List ℕ) → (error ≢ TraceError.OutOfMemory → trace_fault text ≡ Some error)
        → RefusesText (trace_refusal name text) result }
{
    match error {
        TraceError::TooManyLines => Cause::limit(Limit::Lines(name)),
        TraceError::OutOfMemory => Cause::OutOfMemory,
        _ => Cause::Refused(Refusal::BadInput {
            name,
            number: error.number(),
            place: error.line(),
        }),
    }
}

// Returns the trace of a text. A refusal names the file `name`.
fn trace_of(alloc: Global, name: &str, text: &[u8]) -> Result<Trace, Cause>
    ensures trace { IfOk result (λ trace. IsTraceText text.now trace) }
    ensures no_fault { IfOk result (λ _. trace_fault text.now ≡ None) }
    ensures refused { MatchResult result (λ _. trace_refusal name.now text.now ≡ None)
        (λ cause. RefusesText (trace_refusal name.now text.now) cause) }
{
    match read_trace(alloc, text) {
        Ok(trace) => Ok(trace),
        Err(error) => Err(trace_cause(Text::from_text(alloc, name)?, error)),
    }
}

// Returns the trace of a text, which shares the list of `before` if that was read from an equal text. A refusal
// names the file `name`.
fn shared_trace(
    alloc: Global,
    name: &str,
    text: &Bytes,
    before: &Option<TraceFile<'_>>,
) -> Result<Trace, Cause>
    requires before { IfSome before.now (λ file. IsTraceText file.text file.trace) }
    requires no_fault { IfSome before.now (λ file. trace_fault file.text ≡ None) }
    ensures trace { IfOk result (λ trace. IsTraceText text.now trace) }
    ensures no_fault { IfOk result (λ _. trace_fault text.now ≡ None) }
    ensures refused { MatchResult result (λ _. trace_refusal name.now text.now ≡ None)
        (λ cause. RefusesText (trace_refusal name.now text.now) cause) }
{
    match before {
        Some(file) if file.text == *text => Ok(file.trace.copy()?),
        _ => trace_of(alloc, name, text.as_slice()),
    }
}

// Returns the trace in the file `name`, with name and text. It shares the list of `before` if that has the same
// text.
fn load_trace<'a, D: Disk>(
    alloc: Global,
    disk: &mut D,
    name: &'a Text,
    before: &Option<TraceFile<'a>>,
) -> Result<TraceFile<'a>, Cause>
    requires before { IfSome before.now (λ file. IsTraceText file.text file.trace) }
    requires no_fault { IfSome before.now (λ file. trace_fault file.text ≡ None) }
    ensures found { IfOk result (λ file. HasTrace (D.view disk.old).files name.now file.text file.trace) }
    ensures no_fault { IfOk result (λ file. trace_fault file.text ≡ None) }
    ensures stopped { IfErr result (λ cause. StopsReading (reading_trace name.now Done) (D.view disk.old)
        (D.view disk.new) cause) }
    ensures only_reads { OnlyReads (D.view disk.old) (D.view disk.new) }
{
    let text = read_input(alloc, disk, name.as_str())?;
    let trace = shared_trace(alloc, name.as_str(), &text, before)?;
    Ok(TraceFile { name, text, trace })
}

/// Returns the traces in the files `names`, each of which is read before the next. Two equal names in turn share one
/// list if both readings gave the same text. The cause of what can't be read is its refusal, a fault of the disk, or
/// out of memory.
pub fn load_traces<D: Disk>(
    alloc: Global,
    disk: &mut D,
    names: &[Text],
) -> Result<Vec<Trace>, Cause>
    ensures found { IfOk result (λ traces. ((texts : List (List ℕ))
        × HaveTraces (D.view disk.old).files names.now texts traces.items)) }
    ensures count { IfOk result (λ traces. length traces.items ≡ length names.now) }
    ensures stopped { IfErr result (λ cause. StopsReading (reading_traces names.now Done) (D.view disk.old)
        (D.view disk.new) cause) }
    ensures only_reads { OnlyReads (D.view disk.old) (D.view disk.new) }
{
    let mut traces = Vec::new(alloc);
    let mut before: Option<TraceFile> = None;
    for name in names {
        if !has_name(&before, name) {
            // A text that the next isn't compared with is let go before that is read.
            before = None;
        }
        let file = load_trace(alloc, disk, name, &before)?;
        traces.push(file.trace.copy()?)?;
        before = Some(file);
    }
    Ok(traces)
}
