//! Nests of shells: the words that state a nest, what becomes of each packet that is sent through it, and how that is
//! printed.
#![tactic(auto)]

mod build_shells;
mod error;
mod fate;
mod fates_text;
mod gathering;
mod link_words;
mod mark;
mod marked_rows;
mod marking;
mod naming;
mod nest;
mod nest_words;
mod packed_fate;
mod places;
mod run_result;
mod shell;
mod shell_reading;
mod shell_words;
mod table_text;

pub use error::NestError;
pub use fate::{Fate, FateRow};
pub use fates_text::{print_fates, put_fate};
pub use gathering::gather;
pub use marking::Marking;
pub use naming::in_nest_order;
pub use nest::{Nest, build};
pub use nest_words::{NestWords, read_nest};
pub use packed_fate::{PackedFate, unpack_fates};
pub use run_result::{Named, NamedLog, RunResult};
pub use shell::{LinkDirection, Shell, ShellDirection};
pub use shell_words::LinkSide;
pub use table_text::{TABLE_HEADER, TABLE_LINES, TableEntry, TableFate, TableRow, put_table};
