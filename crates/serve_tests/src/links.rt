// Links and ports in memory, and a port of TCP.
ghost use Rattle.std.specs.Prelude.{◌≤◌, IfOk};
ghost use Rattle.mm_base.specs.MemLink.{IsUnused};
ghost use Rattle.mm_base.specs.MemPort.{AllUnused};

use mm_base::{MemLink, MemPort, Port, TcpPort};
use std::alloc::Global;
use text_base::{Bytes, OutOfMemory};

pub(crate) const REQUEST: &str = "GET / HTTP/1.1\r\nHost: a\r\n\r\n";

pub(crate) const RESPONSE: &str = "HTTP/1.1 200 OK\r\nContent-Length: 2\r\n\r\nhi";

/// A link with this input, of which a read brings at most `most` bytes. Its call of this number fails; none has 0.
pub(crate) fn link(
    alloc: Global,
    input: &[u8],
    most: usize,
    fail: u64,
) -> Result<MemLink, OutOfMemory>
    requires { 1 ≤ most }
    ensures { IfOk result IsUnused }
{
    let input = Bytes::from_slice(alloc, input)?;
    Ok(MemLink::new(alloc, input, most, Vec::from_slice(alloc, &[fail])?))
}

/// Links that say these, each with the number of its call that fails. A read brings at most so many bytes.
pub(crate) fn links(
    alloc: Global,
    says: &[(&str, u64)],
    most: usize,
) -> Result<Vec<MemLink>, OutOfMemory>
    requires { 1 ≤ most }
    ensures { IfOk result (λ links. AllUnused links.items) }
{
    let mut links = Vec::new(alloc);
    'says: for &(input, fail) in says {
        links.push(link(alloc, input.as_bytes(), most, fail)?)?;
    }
    Ok(links)
}

/// A port of such links. Its call of this number fails.
pub(crate) fn port_of(
    alloc: Global,
    says: &[(&str, u64)],
    most: usize,
    fail: u64,
) -> Result<MemPort, OutOfMemory>
    requires { 1 ≤ most }
{
    let links = links(alloc, says, most)?;
    Ok(MemPort::new(alloc, links, Vec::from_slice(alloc, &[fail])?))
}

/// A port of TCP that is free, at which it listens now. `None`: it couldn't be had.
pub(crate) fn listening(rt: &HostRuntime) -> Option<TcpPort<HostRuntime>> {
    let mut port = TcpPort::new(rt.clone().ok()?);
    match port.listen(0) {
        Ok(()) => Some(port),
        Err(_) => None,
    }
}
