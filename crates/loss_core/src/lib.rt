//! One direction of a loss shell: its rate, the words that it draws, and the packets that it drops.
#![tactic(auto)]

mod loss;
mod rate;
mod whole;
mod words;

pub use loss::LossCore;
pub use rate::{Rate, RateError, read_rate};
pub use whole::lose_all;
pub use words::{ChaWords, ListWords, Words};
