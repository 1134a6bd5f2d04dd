// The lines of requests, for a person.
use crate::misses::{Miss, Nearest};
use http_frame::RequestHead;
use std::alloc::Global;
use text_base::{Bytes, OutOfMemory, write_decimal};

// Who says it.
const NAME: &[u8] = b"mm replay: ";

// The status of the answer to a request without a record.
const NOT_FOUND: u16 = 404;

const HEX: [u8; 16] = *b"0123456789abcdef";

// Adds bytes of a peer or of a file as a terminal may show them.
fn put_shown(line: &mut Bytes, bytes: &[u8]) -> Result<(), OutOfMemory> {
    for byte in bytes {
        match *byte {
            b'\\' => line.append(b"\\\\")?,
            32..=126 => line.push(*byte)?,
            other => line.append(&[
                b'\\',
                b'x',
                HEX[usize::from(other / 16)],
                HEX[usize::from(other % 16)],
            ])?,
        }
    }
    Ok(())
}

// Adds a value in quotes.
fn put_quoted(line: &mut Bytes, value: &Bytes) -> Result<(), OutOfMemory> {
    line.append(b"'")?;
    put_shown(line, value.as_slice())?;
    line.append(b"'")
}

// Adds a value in quotes, or that there is none.
fn put_value(line: &mut Bytes, value: &Option<Bytes>) -> Result<(), OutOfMemory> {
    match value {
        Some(value) => put_quoted(line, value),
        None => line.append(b"none"),
    }
}

// Adds the port of a record, and the option by which a request gets it.
fn put_site_port(line: &mut Bytes, port: u16) -> Result<(), OutOfMemory> {
    write_decimal(line, u64::from(port))?;
    line.append(b": --site-port ")?;
    write_decimal(line, u64::from(port))?;
    line.append(b" serves it")
}

// Adds what the nearest record has in place of what no record has.
fn put_nearest(line: &mut Bytes, nearest: &Nearest<'_>) -> Result<(), OutOfMemory> {
    let recorded = &nearest.record.request.head;
    line.append(b" (record ")?;
    write_decimal(line, nearest.number as u64)?;
    line.append(b" has ")?;
    match nearest.miss {
        Miss::Port => put_site_port(line, nearest.record.port)?,
        Miss::Host => put_value(line, &recorded.host)?,
        Miss::Agent => put_value(line, &recorded.agent)?,
        Miss::Line => put_shown(line, recorded.line.as_slice())?,
    }
    line.append(b")")
}

// Adds which part of a request no record has, after those that some record has.
fn put_miss(
    line: &mut Bytes,
    request: &RequestHead,
    site: u16,
    miss: Miss,
) -> Result<(), OutOfMemory> {
    line.append(b"no record: none ")?;
    match (miss, &request.host, &request.agent) {
        (Miss::Port, _, _) => {
            line.append(b"of the port ")?;
            write_decimal(line, u64::from(site))
        }
        (Miss::Host, Some(host), _) => {
            line.append(b"of the host ")?;
            put_quoted(line, host)
        }
        (Miss::Host, None, _) => line.append(b"without a Host"),
        (Miss::Agent, _, Some(agent)) => {
            line.append(b"of this host has the User-Agent ")?;
            put_quoted(line, agent)
        }
        (Miss::Agent, _, None) => line.append(b"of this host is without a User-Agent"),
        (Miss::Line, _, _) => {
            line.append(b"of this host and User-Agent has this line up to its first '?'")
        }
    }
}

// The prefix of the line of a request, with the status of its answer.
fn begin_line(alloc: Global, request: &RequestHead, status: u16) -> Result<Bytes, OutOfMemory> {
    let mut line = Bytes::new(alloc);
    line.append(NAME)?;
    put_shown(&mut line, request.line.as_slice())?;
    line.append(b": ")?;
    write_decimal(&mut line, u64::from(status))?;
    line.append(b": ")?;
    Ok(line)
}

// The line of a request that a record answers, by its number, counted from 1, and the status of its response.
pub(crate) fn line_of_record(
    alloc: Global,
    request: &RequestHead,
    number: usize,
    status: u16,
) -> Result<Bytes, OutOfMemory> {
    let mut line = begin_line(alloc, request, status)?;
    line.append(b"record ")?;
    write_decimal(&mut line, number as u64)?;
    line.append(b"\n")?;
    Ok(line)
}

// The line of a request that no record answers.
pub(crate) fn line_of_miss(
    alloc: Global,
    request: &RequestHead,
    site: u16,
    nearest: &Option<Nearest<'_>>,
) -> Result<Bytes, OutOfMemory> {
    let mut line = begin_line(alloc, request, NOT_FOUND)?;
    match nearest {
        Some(nearest) => {
            put_miss(&mut line, request, site, nearest.miss)?;
            put_nearest(&mut line, nearest)?;
        }
        None => line.append(b"no record: the store has none")?,
    }
    line.append(b"\n")?;
    Ok(line)
}

// The line of what is no request.
pub(crate) fn line_of_refusal(alloc: Global) -> Result<Bytes, OutOfMemory> {
    let mut line = Bytes::new(alloc);
    line.append(NAME)?;
    line.append(b"what came is no request: 400 Bad Request\n")?;
    Ok(line)
}
