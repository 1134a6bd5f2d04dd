// Tests of schedules that are read, printed and made: worked values, and what no clause says.
ghost use Rattle.std.specs.Prelude.{◌≤◌};

use packet_record::{
    Draws, ScheduleError, ScheduleParser, ScheduleReader, make_load, print_schedule, read_schedule,
};
use std::alloc::Global;
use text_base::limits::MOST_LINES;
use text_base::{Bytes, OutOfMemory, PieceReader};

fn moves<T: Send + Drop>(_value: T) {}

fn shares<T: Sync>(_value: &T) {}

// Returns whether the schedule of a text is printed as `said`.
fn is_printed(alloc: Global, text: &[u8], said: &[u8]) -> Result<bool, ScheduleError> {
    let schedule = read_schedule(alloc, text)?;
    let printed = print_schedule(alloc, &schedule)?;
    Ok(printed.as_slice() == said)
}

// Returns how many rows an empty text has. Its schedule may be shared and sent.
fn rows_of_nothing(alloc: Global) -> Result<usize, ScheduleError> {
    let empty = read_schedule(alloc, b"")?;
    let count = empty.rows().len();
    shares(&empty);
    moves(empty);
    Ok(count)
}

// Texts, and what is printed of the schedule of each.
static PRINTED: [(&[u8], &[u8]); 2] = [
    (b"05 up 0100", b"5 up 100\n"),
    (
        b"0 up 1\n9999999999 down 1504\n",
        b"0 up 1\n9999999999 down 1504\n",
    ),
];

#[test]
fn prints_what_it_read(rt: HostRuntime) {
    for &(text, said) in &PRINTED {
        assert!(rt; is_printed(rt.alloc(), text, said).expect(&rt, "a schedule"));
    }
    assert!(rt; rows_of_nothing(rt.alloc()).expect(&rt, "a schedule") == 0);
}

// Returns whether the rows of a text that was read are printed as `said`, or its refusal has the number and the line of
// `said`.
fn ends_as(
    alloc: Global,
    reading: ScheduleParser,
    said: Result<&[u8], (u32, u64)>,
) -> Result<bool, OutOfMemory> {
    match reading.finish() {
        Ok(schedule) => {
            let printed = print_schedule(alloc, &schedule.unpack(alloc)?)?;
            Ok(said == Ok(printed.as_slice()))
        }
        Err(fault) => Ok(said == Err((fault.number(), fault.line()))),
    }
}

// Returns whether a text in pieces of `size` bytes is read as `said`.
fn is_read_in_pieces(
    alloc: Global,
    text: &[u8],
    size: usize,
    said: Result<&[u8], (u32, u64)>,
) -> Result<bool, OutOfMemory> {
    let mut reading = ScheduleParser::new(alloc, text.len())?;
    for piece in text.chunks(size.max(1)) {
        reading.push(piece);
    }
    ends_as(alloc, reading, said)
}

static SIZES: [usize; 5] = [1, 2, 13, 27, 65_536];

// Returns whether a text in pieces of any size is read as `said`.
fn is_read(
    alloc: Global,
    text: &[u8],
    said: Result<&[u8], (u32, u64)>,
) -> Result<bool, OutOfMemory> {
    for &size in &SIZES {
        if !is_read_in_pieces(alloc, text, size, said)? {
            return Ok(false);
        }
    }
    Ok(true)
}

// Texts, and what is printed of the rows of each, or the number of its refusal and the line that it names.
static READ: [(&[u8], Result<&[u8], (u32, u64)>); 9] = [
    (
        b"05 up 0100\n7 down 1504\n7 up 1",
        Ok(b"5 up 100\n7 down 1504\n7 up 1\n"),
    ),
    (
        b"0000000001 down 0000000002\n1 up 3\n",
        Ok(b"1 down 2\n1 up 3\n"),
    ),
    (
        b"4294967295 up 1\n4294967296 up 1504\n9999999999 down 1504",
        Ok(b"4294967295 up 1\n4294967296 up 1504\n9999999999 down 1504\n"),
    ),
    (b"", Ok(b"")),
    (b"5 up 1\n\n6 up 1\n", Err((1, 2))),
    (b"5 up 1\n4 up 1\n0 up 0\n", Err((3, 2))),
    (b"5 up 1\n6 up 1505", Err((2, 2))),
    (b"0000000001 down 0000000002 \n1 up 3\n", Err((1, 1))),
    (
        b"1 up 1\n0000000001 down 00000000020000000002 down 2",
        Err((1, 2)),
    ),
];

#[test]
fn reads_a_text_in_pieces(rt: HostRuntime) {
    for &(text, said) in &READ {
        assert!(rt; is_read(rt.alloc(), text, said).expect(&rt, "memory"));
    }
}

// Returns how many rows there are of a text that was refused, or `None` if it wasn't.
fn rows_of_refused(alloc: Global, text: &[u8]) -> Result<Option<usize>, OutOfMemory> {
    let mut reading = ScheduleParser::new(alloc, text.len())?;
    reading.push(text);
    reading.end();
    Ok(if reading.is_refused() {
        Some(reading.rows().len())
    } else {
        None
    })
}

// Texts that are refused at a line, and how many lines are before it.
static REFUSED: [(&[u8], usize); 4] = [
    (b"x\n5 up 1\n", 0),
    (b"5 up 1\n4 up 1\n6 up 1\n", 1),
    (b"5 up 1\n5 up 1505\n6 up 1\n", 1),
    (b"5 up 1\n6 up 1\n6 up", 2),
];

#[test]
fn a_line_that_is_refused_has_no_row(rt: HostRuntime) {
    for &(text, rows) in &REFUSED {
        assert!(rt; rows_of_refused(rt.alloc(), text).expect(&rt, "memory") == Some(rows));
    }
}

// Returns the text of the load that is made of `number`, with `packets` packets.
fn load_text(alloc: Global, number: u64, packets: u32) -> Result<Bytes, OutOfMemory>
    requires some { 1 ≤ packets }
    requires few { packets ≤ MOST_LINES }
{
    let load = make_load(alloc, number, packets)?;
    print_schedule(alloc, &load)
}

#[test]
fn ten_thousand_rows_are_read_in_pieces(rt: HostRuntime) {
    let text = load_text(rt.alloc(), 7, 10_000).expect(&rt, "memory");
    assert!(rt; is_read(rt.alloc(), text.as_slice(), Ok(text.as_slice())).expect(&rt, "memory"));
}

// Lines, and how each is refused after those before it.
static LINES: [(&[u8], Option<ScheduleError>); 3] = [
    (b"7 down 40", None),
    (b"6 down 40", Some(ScheduleError::Decreasing { line: 2 })),
    (b"8 down 40", Some(ScheduleError::Decreasing { line: 2 })),
];

// Returns how the reader refuses the next line, if it does.
fn next_refusal(reader: &mut ScheduleReader, line: &[u8]) -> Option<ScheduleError> {
    match reader.next(line) {
        Ok(_) => None,
        Err(fault) => Some(fault),
    }
}

#[test]
fn refuses_again(rt: HostRuntime) {
    let mut reader = ScheduleReader::new();
    for &(line, said) in &LINES {
        assert!(rt; next_refusal(&mut reader, line) == said);
    }
}

// The first draws of the generator.
static DRAWN: [u32; 11] = [
    149, 11249, 57305, 38044, 35283, 24819, 26463, 18689, 25472, 9901, 21742,
];

// Returns whether the generator draws `DRAWN`.
fn draws_as_said() -> bool {
    let mut draws = Draws::new(65537);
    for &value in &DRAWN {
        if draws.draw() != value {
            return false;
        }
    }
    true
}

// The load of number 1, with three packets.
const LOAD: &[u8] = b"1 up 366\n1 down 1483\n4 up 675\n";

#[test]
fn makes_loads(rt: HostRuntime) {
    let load = load_text(rt.alloc(), 1, 3).expect(&rt, "memory");
    assert!(rt; load.as_slice() == LOAD && draws_as_said());
}
