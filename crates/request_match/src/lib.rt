//! Finds the recorded exchange whose response answers a request.
#![tactic(auto)]

mod copies;
mod index;
mod index_entries;
mod index_scores;
mod keys;
mod matching;
mod starts;

pub use index::Index;
pub use matching::best;
