// Tests of bytes and texts that grow, of numbers in digits, and of the lines of a text.
use std::alloc::Global;
use text_base::{Bytes, Lines, OutOfMemory, Text, read_canonical, read_decimal, write_decimal};

fn is_shared<T: Send + Sync>(_: &T) {}

// Returns the bytes `abc`, which were added to none.
fn grown(alloc: Global) -> Result<Bytes, OutOfMemory> {
    let mut bytes = Bytes::with_capacity(alloc, 2)?;
    bytes.push(b'a')?;
    bytes.reserve(3)?;
    bytes.append(b"bc")?;
    Ok(bytes)
}

// Returns whether bytes and a copy of them are `said`, and the bytes are empty once they are cleared.
fn is_cleared(bytes: &mut Bytes, said: &[u8]) -> Result<bool, OutOfMemory> {
    let is_same = bytes.as_slice() == said && bytes.clone()? == *bytes;
    bytes.clear();
    Ok(is_same && bytes.is_empty())
}

// Returns whether a text and its copy are the same, of `length` bytes.
fn is_copied(text: &Text, length: usize) -> Result<bool, OutOfMemory> {
    Ok(text.clone()? == *text && text.len() == length)
}

// Returns whether bytes grow.
fn bytes_grow(alloc: Global) -> Result<bool, OutOfMemory> {
    let mut bytes = grown(alloc)?;
    is_shared(&bytes);
    is_cleared(&mut bytes, b"abc")
}

// Returns whether a text is made.
fn text_is_made(alloc: Global) -> Result<bool, OutOfMemory> {
    let text = Text::from_text(alloc, "name")?;
    is_shared(&text);
    is_copied(&text, 4)
}

#[test]
fn bytes_and_texts_grow_and_go_between_threads(rt: HostRuntime) {
    assert!(rt; bytes_grow(rt.alloc()).expect(&rt, "memory"));
    assert!(rt; text_is_made(rt.alloc()).expect(&rt, "memory"));
}

// Texts, and the number that each is read as, in any form and in the canonical one.
static READ: [(&str, Option<u64>, Option<u64>); 9] = [
    ("0", Some(0), Some(0)),
    ("00", Some(0), None),
    ("05", Some(5), None),
    ("10", Some(10), Some(10)),
    ("9999999999", Some(9999999999), Some(9999999999)),
    ("00000000001", None, None),
    ("", None, None),
    ("+1", None, None),
    ("1 ", None, None),
];

// Returns whether a text is read as the two numbers.
fn is_read_as(text: &[u8], decimal: Option<u64>, canonical: Option<u64>) -> bool {
    read_decimal(text) == decimal && read_canonical(text) == canonical
}

// Returns the digits of the least and the greatest number, one after the other.
fn written(alloc: Global) -> Result<Bytes, OutOfMemory> {
    let mut out = Bytes::new(alloc);
    write_decimal(&mut out, 0)?;
    write_decimal(&mut out, 18446744073709551615)?;
    Ok(out)
}

#[test]
fn numbers_are_read_and_written(rt: HostRuntime) {
    for &(text, decimal, canonical) in &READ {
        assert!(rt;
            is_read_as(text.as_bytes(), decimal, canonical),
            "of {text}"
        );
    }
    let written = written(rt.alloc()).expect(&rt, "memory");
    assert!(rt; written.as_slice() == b"018446744073709551615".as_slice());
}

// Returns whether the lines of a text are those of `said`.
fn has_lines(text: &[u8], said: &[&[u8]]) -> bool {
    let mut lines = Lines::new(text);
    for line in said {
        if lines.next() != Some(*line) {
            return false;
        }
    }
    lines.next().is_none()
}

#[test]
fn a_text_is_cut_at_each_line_feed(rt: HostRuntime) {
    assert!(rt; has_lines(b"a\r\n\nb", &[b"a\r", b"", b"b"]));
    assert!(rt; has_lines(b"", &[]));
    assert!(rt; Lines::new(b"a\n").count() == 1);
}
