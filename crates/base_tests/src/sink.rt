// Tests of bytes that are sent to a sink in memory, to the standard output, and to writers that take little.
use crate::halting::Halting;
use mm_base::{EndError, MemSink, Sink, StdSink, send_all};

// Returns whether sending all of `bytes` gives `said`.
fn sends<O: Sink>(out: &mut O, bytes: &[u8], said: Result<(), EndError>) -> bool {
    send_all(out, bytes) == said
}

// Returns whether one call takes `count` bytes of a piece.
fn takes<O: Sink>(out: &mut O, piece: &[u8], count: usize) -> bool {
    out.write(piece) == Ok(count)
}

// Returns whether a sink whose second call fails takes two bytes, and no more.
fn sends_a_front(sink: &mut MemSink) -> bool {
    sends(sink, b"ab", Ok(()))
        && sends(sink, b"cd", Err(EndError::Failed))
        && sink.written() == b"ab".as_slice()
}

#[test]
fn all_is_sent_or_a_front(rt: HostRuntime) {
    let fails = [2].to_vec(rt.alloc()).expect(&rt, "memory");
    let mut sink = MemSink::new(rt.alloc(), fails);
    assert!(rt; sends_a_front(&mut sink));
    let mut out = StdSink::new(rt.stdout());
    assert!(rt; sends(&mut out, b"sent to the standard output\n", Ok(())));
}

// Returns whether a writer that takes two bytes at a call, and is interrupted, takes all pieces.
fn writes_on(writer: &mut Halting) -> bool {
    let mut sink = StdSink::new(writer);
    takes(&mut sink, b"abc", 2) && takes(&mut sink, b"cde", 2) && sends(&mut sink, b"efg", Ok(()))
}

// Returns whether a sink with room for two bytes fails at three.
fn fails_when_full() -> bool {
    let mut full = [0u8; 2];
    let mut sink = StdSink::new(full.as_mut_slice());
    sends(&mut sink, b"abc", Err(EndError::Failed))
}

#[test]
fn what_a_writer_took_is_answered(rt: HostRuntime) {
    let mut writer = Halting::new(Vec::new(rt.alloc()));
    assert!(rt; writes_on(&mut writer));
    assert!(rt; writer.bytes.as_slice() == b"abcdefg".as_slice());
    assert!(rt; fails_when_full());
}
