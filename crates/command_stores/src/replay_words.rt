// What the words after `replay` ask for.
ghost use Rattle.std.specs.Prelude.{◌≡◌, IfOk, map, string_bytes, option_map};
ghost use Rattle.std.specs.Result.{result_ok};
ghost use Rattle.command_stores.specs.Replaying.{replay_from, replay_job_of, site_port_in};
ghost use Rattle.command_stores.specs.inside.Values.{replay_values};

use crate::replay_job::ReplayJob;
use option_words::{Command, WordFault, job_or_fault, read_given, read_port, read_within};
use std::alloc::{AllocError, Global};

// The port that requests are asked at: the given one, or else the one that is listened at.
fn read_site_port(text: Option<&str>, port: u16) -> Option<u16>
    ensures { result ≡ site_port_in port (option_map (λ t. t.now) text.entry) }
{
    match text {
        Some(text) => read_port(text),
        None => Some(port),
    }
}

// Returns the job of what is given of each option. The numbers are decimals within their ranges.
#[tactic(auto, unfolding(crate::specs::Replaying::replay_from))]
fn replay_job<'a>(given: &[Option<&'a str>]) -> Option<ReplayJob<'a>>
    ensures { option_map replay_values result ≡ replay_from (map (λ o. option_map (λ s. s.now) o) given.now) }
{
    let [store, port, connections, site_port, until_ended] = given else {
        return None;
    };
    let port = read_port((*port)?)?;
    let connections = read_within((*connections)?, 1, 64)?;
    let site_port = read_site_port(*site_port, port)?;
    Some(ReplayJob {
        store: (*store)?,
        port,
        connections: connections as u32,
        site_port,
        until_ended: until_ended.is_some(),
    })
}

// Returns the job of `words`, or `None` if they have none.
fn find_replay<'a>(alloc: Global, words: &'a [String]) -> Result<Option<ReplayJob<'a>>, AllocError>
    ensures { IfOk result (λ found. option_map replay_values found ≡ replay_job_of (map string_bytes words.now)) }
{
    match read_given(alloc, Command::Replay, words)? {
        Some(given) => Ok(replay_job(&given)),
        None => Ok(None),
    }
}

// Returns the job of `words`, the words after the command's name, or their first fault.
pub(crate) fn read_replay<'a>(
    alloc: Global,
    words: &'a [String],
) -> Result<Result<ReplayJob<'a>, WordFault>, AllocError>
    ensures { IfOk result (λ read. option_map replay_values (result_ok read) ≡ replay_job_of (map string_bytes words.now)) }
{
    let found = find_replay(alloc, words)?;
    Ok(job_or_fault(found, Command::Replay, words))
}
