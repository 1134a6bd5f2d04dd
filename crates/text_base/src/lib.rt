//! Texts: bytes that grow, numbers, words, lines, and what is printed as a line; the limits that several crates share;
//! and `OutOfMemory`, the error of whatever takes memory.
#![tactic(auto)]

mod bytes;
mod front_digits;
mod kept_digits;
pub mod limits;
mod line_buffer;
mod lines;
mod numbers;
mod out_of_memory;
mod piece_reader;
mod printing;
mod words;

pub use bytes::{Bytes, Text};
pub use line_buffer::LineBuffer;
pub use lines::{Lines, cut_line, first_line};
pub use numbers::{read_canonical, read_decimal, split_decimal, write_decimal};
pub use out_of_memory::OutOfMemory;
pub use piece_reader::PieceReader;
pub use printing::{LINES_AT_ONCE, PrintLine, print_lines, put_lines, split_lines};
pub use words::split_word;
