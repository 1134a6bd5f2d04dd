//! The files of stores, and the line of a serving: a store is read from its file, and written to one, and how the
//! connections of a serving ended is printed.
#![tactic(auto)]

mod reading;
mod served;
mod writing;

pub use reading::{load_store, load_store_as};
pub use served::print_served;
pub use writing::write_store;
