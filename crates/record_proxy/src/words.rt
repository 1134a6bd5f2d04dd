// What the words of `mm-record` ask for.
ghost use Rattle.std.specs.Prelude.{◌≡◌, IfOk, map, string_bytes, option_map};
ghost use Rattle.std.specs.Result.{result_ok};
ghost use Rattle.record_proxy.specs.Proxying.{proxy_from, proxy_job_of};
ghost use Rattle.record_proxy.specs.inside.Values.{proxy_values};

use crate::job::ProxyJob;
use option_words::{Command, WordFault, job_or_fault, read_given, read_port, read_within};
use std::alloc::{AllocError, Global};

// Returns the job of what is given of each option. The numbers are decimals within their ranges.
#[tactic(auto, unfolding(crate::specs::Proxying::proxy_from))]
fn proxy_job<'a>(given: &[Option<&'a str>]) -> Option<ProxyJob<'a>>
    ensures { option_map proxy_values result ≡ proxy_from (map (λ o. option_map (λ s. s.now) o) given.now) }
{
    let [port, to, connections, out, until_ended] = given else {
        return None;
    };
    let port = read_port((*port)?)?;
    let site_port = read_port((*to)?)?;
    let least = if until_ended.is_some() { 1 } else { 0 };
    let connections = read_within((*connections)?, least, 64)?;
    Some(ProxyJob {
        port,
        site_port,
        connections: connections as u32,
        out: (*out)?,
        until_ended: until_ended.is_some(),
    })
}

// Returns the job of `words`, or `None` if they have none.
fn find_proxy<'a>(alloc: Global, words: &'a [String]) -> Result<Option<ProxyJob<'a>>, AllocError>
    ensures { IfOk result (λ found. option_map proxy_values found ≡ proxy_job_of (map string_bytes words.now)) }
{
    match read_given(alloc, Command::Proxy, words)? {
        Some(given) => Ok(proxy_job(&given)),
        None => Ok(None),
    }
}

// Returns the job of `words`, the words after the program's name, or their first fault.
pub(crate) fn read_proxy<'a>(
    alloc: Global,
    words: &'a [String],
) -> Result<Result<ProxyJob<'a>, WordFault>, AllocError>
    ensures { IfOk result (λ read. option_map proxy_values (result_ok read) ≡ proxy_job_of (map string_bytes words.now)) }
{
    let found = find_proxy(alloc, words)?;
    Ok(job_or_fault(found, Command::Proxy, words))
}
