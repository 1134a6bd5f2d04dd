// Tests of traces that are read, printed and made.
use std::alloc::Global;
use text_base::OutOfMemory;
use trace_reader::{Trace, TraceError, TraceForm, make_trace, print_trace, read_trace};

fn is_shared<T: Send + Sync>(_: &T) {}

// Returns the trace of a text.
fn trace_of(alloc: Global, text: &[u8]) -> Result<Trace, TraceError> {
    read_trace(alloc, text)
}

// Returns whether the text of a trace is `said`.
fn prints(alloc: Global, trace: &Trace, said: &[u8]) -> Result<bool, OutOfMemory> {
    let text = print_trace(alloc, trace)?;
    Ok(text.as_slice() == said)
}

// Returns whether the text of a copy of a trace is `said`.
fn is_copied(alloc: Global, text: &[u8], said: &[u8]) -> Result<bool, TraceError> {
    let trace = trace_of(alloc, text)?;
    is_shared(&trace);
    let copy = trace.copy()?;
    Ok(prints(alloc, &copy, said)?)
}

// Returns whether a text that states bytes is read and printed again.
fn is_stated(alloc: Global, text: &[u8]) -> Result<bool, TraceError> {
    let trace = trace_of(alloc, text)?;
    Ok(trace.form() == TraceForm::MomentsAndBytes && prints(alloc, &trace, text)?)
}

// A text that states bytes.
const STATED: &[u8] = b"# mm-trace 2\n1 500\n2 3000\n";

#[test]
fn traces_are_printed(rt: HostRuntime) {
    assert!(rt; is_copied(rt.alloc(), b"007", b"7\n").expect(&rt, "a trace"));
    assert!(rt; is_stated(rt.alloc(), STATED).expect(&rt, "a trace"));
}

// The first lines of a made trace.
const FIRST: &[u8] = b"3\n6\n9\n11\n12\n13\n14\n17\n20\n22\n24\n";

// Returns whether the text of a trace begins with `first`.
fn begins(alloc: Global, trace: &Trace, first: &[u8]) -> Result<bool, OutOfMemory> {
    let text = print_trace(alloc, trace)?;
    Ok(text.as_slice().starts_with(first))
}

// Returns whether a trace has a hundred opportunities, the last of them at its last moment.
fn has_a_hundred(trace: &Trace) -> bool {
    trace.len() == 100 && trace.at(trace.len() - 1).moment == trace.last_moment()
}

#[test]
fn a_trace_is_made(rt: HostRuntime) {
    let trace = make_trace(rt.alloc(), 1).expect(&rt, "memory");
    assert!(rt; has_a_hundred(&trace));
    assert!(rt; begins(rt.alloc(), &trace, FIRST).expect(&rt, "memory"));
}

// How many lines a long text has.
const MANY: usize = 10_000;

// Returns a text of many lines behind `head`, each a moment and `tail`.
fn long_text(alloc: Global, head: &str, tail: &str) -> Result<String, OutOfMemory> {
    let mut text = String::new(alloc);
    text.push_str(head)?;
    for moment in 0..MANY {
        write!(text, "{moment}{tail}")?;
    }
    Ok(text)
}

// Returns whether a text of many lines is read and printed again.
fn is_printed_long(alloc: Global, head: &str, tail: &str) -> Result<bool, TraceError> {
    let text = long_text(alloc, head, tail)?;
    let trace = trace_of(alloc, text.as_bytes())?;
    Ok(trace.len() == MANY && prints(alloc, &trace, text.as_bytes())?)
}

#[test]
fn ten_thousand_lines_are_read_and_printed(rt: HostRuntime) {
    assert!(rt; is_printed_long(rt.alloc(), "", "\n").expect(&rt, "a trace"));
    assert!(rt; is_printed_long(rt.alloc(), "# mm-trace 2\n", " 1000000\n").expect(&rt, "a trace"));
}
