//! The commands over stores. `record` makes a store of the two streams of a connection, `match` asks a store which
//! record answers a request, `migrate` writes a store in form 2, and `replay` serves the records of a store.
#![tactic(auto)]

mod matching;
mod migrating;
mod names;
mod port;
mod recording;
mod replay_job;
mod replay_words;
mod replaying;
mod request_file;

pub use matching::answer_match;
pub use migrating::answer_migrate;
pub use recording::answer_record;
pub use replaying::answer_replay;
