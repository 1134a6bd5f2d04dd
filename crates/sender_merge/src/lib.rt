//! Several senders as one: their flows are merged packet by packet, by what each has sent so far.
#![tactic(auto)]

mod feeding;
mod gates;
mod incoming;
mod inlet;
mod looks;
mod merge_core;
mod merger;
mod outlet;
mod row_merge;
mod senders;
mod step;
mod thin_merge;

pub use merge_core::MergeCore;
pub use row_merge::count_rows;
pub use senders::Senders;
pub use step::MergeStep;
