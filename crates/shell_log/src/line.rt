// How one line of a log is read.
ghost use Rattle.std.specs.Prelude.{◌≡◌};
ghost use Rattle.shell_log.specs.Reading.{arrival_of, opportunity_of, departure_of, drop_of, entry_of};

use crate::Entry;
use text_base::{read_canonical, split_word};

// The entry that a line says, if it is of one of the four forms and in range.
pub(crate) fn read_entry(line: &[u8]) -> Option<Entry>
    ensures { result ≡ entry_of line.now }
{
    let (first, rest) = split_word(line);
    let moment = read_canonical(first)?;
    let (sign, rest) = split_word(rest);
    if sign == b"+".as_slice() {
        read_arrival(moment, rest)
    } else if sign == b"#".as_slice() {
        read_opportunity(moment, rest)
    } else if sign == b"-".as_slice() {
        read_departure(moment, rest)
    } else if sign == b"d".as_slice() {
        read_drop(moment, rest)
    } else {
        None
    }
}

fn read_arrival(moment: u64, rest: &[u8]) -> Option<Entry>
    ensures { result ≡ arrival_of moment rest.now }
{
    let size = read_canonical(rest)?;
    if size < 1 || size > 1504 {
        return None;
    }
    Some(Entry::Arrival {
        moment,
        size: size as u16,
    })
}

fn read_opportunity(moment: u64, rest: &[u8]) -> Option<Entry>
    ensures { result ≡ opportunity_of moment rest.now }
{
    let bytes = read_canonical(rest)?;
    if bytes < 1 || bytes > 1_000_000 {
        return None;
    }
    Some(Entry::Opportunity {
        moment,
        bytes: bytes as u32,
    })
}

fn read_departure(moment: u64, rest: &[u8]) -> Option<Entry>
    ensures { result ≡ departure_of moment rest.now }
{
    let (first, rest) = split_word(rest);
    let size = read_canonical(first)?;
    let delay = read_canonical(rest)?;
    if size < 1 || size > 1504 || delay > moment {
        return None;
    }
    Some(Entry::Departure {
        moment,
        size: size as u16,
        delay,
    })
}

fn read_drop(moment: u64, rest: &[u8]) -> Option<Entry>
    ensures { result ≡ drop_of moment rest.now }
{
    let (first, rest) = split_word(rest);
    let packets = read_canonical(first)?;
    let bytes = read_canonical(rest)?;
    if packets < 1 || bytes < 1 {
        return None;
    }
    Some(Entry::Drop {
        moment,
        packets,
        bytes,
    })
}
