//! What a serving says of each request on the standard error, if it is asked for: by which record it is answered, or
//! why by none. It only watches: a port and its connections do what they do without it. And what `migrate --cut` says
//! that it left out.
#![tactic(auto)]

mod cut_store;
mod lines;
mod link;
mod misses;
mod notes;
mod port;
mod recorded;

pub use cut_store::{CutStore, read_cut};
pub use link::NotedLink;
pub use notes::Notes;
pub use port::NotedPort;
pub use recorded::{Recorded, read_recorded};
