//! A port of TCP whose user may ask it to end, by the end of one descriptor, and the watch of that descriptor.
#![tactic(auto)]

mod ending;
mod link;
mod port;
mod seen;
mod shortage;
mod watch;

pub use link::{EndedLink, Silence};
pub use port::EndedPort;
pub use shortage::{is_shortage, rest_at_shortage};
pub use watch::{EndWatch, Waking, Wanted, wait_for};
