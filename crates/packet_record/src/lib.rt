//! Packets, rows and schedules, and the items and flows that pass between shells.
#![tactic(auto)]

mod both;
mod draws;
mod flow;
mod gathering;
mod item;
mod line;
mod load;
mod packed_row;
mod packed_schedule;
mod packet;
mod parser;
mod printing;
mod reach;
mod reading;
mod rows;
mod shared_schedule;
mod source;
mod threads;

pub use both::Both;
pub use draws::Draws;
pub use flow::Flow;
pub use item::{FlowEnd, Item};
pub use load::make_load;
pub use packed_row::PackedRow;
pub use packed_schedule::PackedSchedule;
pub use packet::{Direction, Packet, Row, Timed};
pub use parser::ScheduleParser;
pub use printing::print_schedule;
pub use reach::Reach;
pub use reading::{ScheduleError, ScheduleReader, read_schedule};
pub use rows::Schedule;
pub use shared_schedule::SharedSchedule;
pub use source::source_item;
