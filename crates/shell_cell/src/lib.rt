//! A lock around a shell's state, with two seats: one that feeds the state, and one that takes from it.
//!
//! Each seat goes to one thread. However the two threads run, the calls that they made on the state are a history that
//! one thread could have made: the turns that both seats spent are together numbered 1 to n, each once, and each call,
//! made in the order of the numbers, returned what the state gives there. A feed, a take and a `break_off` spend one
//! turn each. A feed or a take that runs out of memory spends none, and neither does a feed that finds the state
//! broken. Nothing is promised of when a call that waits returns.
#![tactic(auto)]

mod cell;
mod rule;
mod seats;
mod turns;
mod view;

pub use cell::{ShellCell, open};
pub use seats::{DrainSeat, FeedSeat};
