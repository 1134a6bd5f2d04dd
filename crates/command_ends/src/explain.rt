// The one line that explains a cause. It is written in pieces that take no memory.
ghost use Rattle.std.specs.Prelude.{◌∷◌, [], Some, codes};
ghost use Rattle.std.specs.List.{flat_map};
ghost use Rattle.command_ends.specs.Answers.{Concludes, cause_in};
ghost use Rattle.command_ends.specs.Causes.{inner_pieces, limit_pieces, line_of, named_pieces, refusal_pieces};
ghost use Rattle.command_ends.specs.Causes.{words_pieces};
ghost use Rattle.command_ends.specs.inside.Stops.{Sends};

use crate::{Cause, Limit, Refusal, WordsRefusal};
use itoa::Buffer;
use mm_base::{EndError, Sink, send_all};
use text_base::Text;

// Writes all of the pieces.
fn send_pieces<O: Sink>(out: &mut O, pieces: &[&[u8]]) -> Result<(), EndError>
    ensures { Sends (flat_map (λ piece. piece.now) pieces.now) (O.view out.old) (O.view out.new) result }
{
    for piece in pieces {
        send_all(out, piece)?;
    }
    Ok(())
}

// Writes a line that ends with a file's name.
fn send_named<O: Sink>(out: &mut O, words: &[u8], name: &Text) -> Result<(), EndError>
    ensures { Sends (flat_map (λ piece. piece) (named_pieces words.now name.now)) (O.view out.old) (O.view out.new)
        result }
{
    send_pieces(out, &[words, name.as_str().as_bytes(), b"\n"])
}

// Writes the line of a nest's refusal, which ends with the number of the refusal inside it if it has one.
fn send_nest<O: Sink>(
    number: u32,
    place: u64,
    inner: Option<u32>,
    out: &mut O,
) -> Result<(), EndError>
    ensures { Sends (flat_map (λ piece. piece) (words_pieces (WordsRefusal.Nest number place inner))) (O.view out.old)
        (O.view out.new) result }
{
    let mut digits = Buffer::new();
    let mut place_digits = Buffer::new();
    let number = digits.format(number).as_bytes();
    let place = place_digits.format(place).as_bytes();
    match inner {
        Some(inner) => send_inner(number, place, inner, out),
        None => send_pieces(out, &[b"mm: nest ", number, b" ", place, b"\n"]),
    }
}

fn send_inner<O: Sink>(number: &[u8], place: &[u8], inner: u32, out: &mut O) -> Result<(), EndError>
    ensures { Sends (flat_map (λ piece. piece) (codes "mm: nest " ∷ number.now ∷ codes " " ∷ place.now ∷ inner_pieces
        (Some inner)))
        (O.view out.old) (O.view out.new) result }
{
    let mut digits = Buffer::new();
    let inner = digits.format(inner).as_bytes();
    send_pieces(
        out,
        &[b"mm: nest ", number, b" ", place, b" ", inner, b"\n"],
    )
}

fn send_words<O: Sink>(refusal: &WordsRefusal, out: &mut O) -> Result<(), EndError>
    ensures { Sends (flat_map (λ piece. piece) (words_pieces refusal.now)) (O.view out.old) (O.view out.new) result }
{
    match refusal {
        WordsRefusal::Usage(_) => send_pieces(out, &[b"mm: usage\n"]),
        WordsRefusal::Nest {
            number,
            place,
            inner,
        } => send_nest(*number, *place, *inner, out),
        WordsRefusal::Name(name) => send_named(out, b"mm: name ", name),
    }
}

fn send_bad_input<O: Sink>(
    name: &Text,
    number: u32,
    place: u64,
    out: &mut O,
) -> Result<(), EndError>
    ensures { Sends (flat_map (λ piece. piece) (refusal_pieces (Refusal.BadInput name.now number place)))
        (O.view out.old) (O.view out.new) result }
{
    let mut digits = Buffer::new();
    let mut place_digits = Buffer::new();
    send_pieces(
        out,
        &[
            b"mm: bad input ",
            name.as_str().as_bytes(),
            b" ",
            digits.format(number).as_bytes(),
            b" ",
            place_digits.format(place).as_bytes(),
            b"\n",
        ],
    )
}

fn send_limit<O: Sink>(limit: &Limit, out: &mut O) -> Result<(), EndError>
    ensures { Sends (flat_map (λ piece. piece) (limit_pieces limit.now)) (O.view out.old) (O.view out.new) result }
{
    match limit {
        Limit::Horizon => send_pieces(out, &[b"mm: limit horizon\n"]),
        Limit::Opportunities => send_pieces(out, &[b"mm: limit opportunities\n"]),
        Limit::File(name) => send_named(out, b"mm: limit file ", name),
        Limit::Lines(name) => send_named(out, b"mm: limit lines ", name),
        Limit::Packets(name) => send_named(out, b"mm: limit packets ", name),
    }
}

fn send_refusal<O: Sink>(refusal: &Refusal, out: &mut O) -> Result<(), EndError>
    ensures { Sends (flat_map (λ piece. piece) (refusal_pieces refusal.now)) (O.view out.old) (O.view out.new) result }
{
    match refusal {
        Refusal::Words(refusal) => send_words(refusal, out),
        Refusal::Absent(name) => send_named(out, b"mm: absent ", name),
        Refusal::BadInput {
            name,
            number,
            place,
        } => send_bad_input(name, *number, *place, out),
        Refusal::Limit(limit) => send_limit(limit, out),
    }
}

// Writes the line of a cause. A fault of `out` has none.
fn send_line<O: Sink>(cause: &Cause, out: &mut O) -> Result<(), EndError>
    ensures { Sends (line_of cause.now) (O.view out.old) (O.view out.new) result }
{
    match cause {
        Cause::Refused(refusal) => send_refusal(refusal, out),
        Cause::ReadFault(name) => send_named(out, b"mm: read fault ", name),
        Cause::WriteFault(name) => send_named(out, b"mm: write fault ", name),
        Cause::OutFault => send_pieces(out, &[]),
        Cause::NetFault => send_pieces(out, &[b"mm: net fault\n"]),
        Cause::OutOfMemory => send_pieces(out, &[b"mm: memory\n"]),
    }
}

// Explains a cause by its line, and returns the status: the cause's own, or 9 if the sink found no memory.
fn explain<O: Sink>(cause: &Cause, out: &mut O) -> u8
    ensures { Concludes (Some cause.now) (O.view out.old) (O.view out.new) result }
{
    match send_line(cause, out) {
        Ok(()) => cause.status(),
        Err(EndError::Failed) => cause.status(),
        Err(EndError::OutOfMemory) => 9,
    }
}

/// Explains an answer on `out`, and returns the exit status: 0 if all is done, and nothing is written; else the
/// cause's own, and its line or a prefix of it is written; or 9 if the sink found no memory for the line.
pub fn conclude<O: Sink>(answer: &Result<(), Cause>, out: &mut O) -> u8
    ensures { Concludes (cause_in answer.now) (O.view out.old) (O.view out.new) result }
{
    match answer {
        Ok(()) => 0,
        Err(cause) => explain(cause, out),
    }
}
