// How the words for a queue are read: its kind, and the limits of its arguments.
ghost use Rattle.std.specs.Prelude.{◌≡◌, ◌∷◌, ◌<◌, Some, None, length, position, option_to_list, IfSome, ◌==◌, reverse};
ghost use Rattle.std.specs.List.{slice_split};
ghost use Rattle.packet_queue.specs.Arguments.{after_spaces, trimmed, items_of, number_of, limit_of, with_limits};
ghost use Rattle.packet_queue.specs.Arguments.{limited, unlimited, queue_of};
ghost use Rattle.packet_queue.specs.inside.Reading.{limits, with_item, read_on, items_after};

use crate::spec::{QueueError, QueueKind, QueueSpec};
use text_base::read_decimal;

/// Reads a queue's kind and its arguments.
///
/// Kinds are `infinite`, `droptail` and `drophead`. An infinite queue has no arguments. Those of the others are
/// items separated by commas, with any number of spaces around each: `packets=N` and `bytes=N`, each name at most
/// once, N of 1 to 10 digits. A limit of 0 is none, and one limit above 0 is needed. (Manual page of mm-link.)
pub fn read_queue(kind: &str, args: &str) -> Result<QueueSpec, QueueError>
    ensures { result ≡ queue_of kind.now args.now }
{
    match kind {
        "infinite" => read_unlimited(args.as_bytes()),
        "droptail" => read_limited(QueueKind::DropTail, args.as_bytes()),
        "drophead" => read_limited(QueueKind::DropHead, args.as_bytes()),
        _ => Err(QueueError::UnknownKind),
    }
}

fn read_unlimited(args: &[u8]) -> Result<QueueSpec, QueueError>
    ensures { result ≡ unlimited args.now }
{
    if !args.is_empty() {
        return Err(QueueError::LimitOnInfinite);
    }
    Ok(QueueSpec {
        kind: QueueKind::Infinite,
        packets: None,
        bytes: None,
    })
}

fn read_limited(kind: QueueKind, args: &[u8]) -> Result<QueueSpec, QueueError>
    ensures { result ≡ limited kind (items_of args.now) }
{
    match read_limits(args) {
        Some(limits) => with_limits(kind, above_zero(limits.packets), above_zero(limits.bytes)),
        None => Err(QueueError::BadArgs),
    }
}

fn with_limits(
    kind: QueueKind,
    packets: Option<u64>,
    bytes: Option<u64>,
) -> Result<QueueSpec, QueueError>
    ensures { result ≡ with_limits kind packets bytes }
{
    match (packets, bytes) {
        (None, None) => Err(QueueError::NoLimit),
        _ => Ok(QueueSpec {
            kind,
            packets,
            bytes,
        }),
    }
}

// Returns a limit, if there is one above 0.
fn above_zero(limit: Option<u64>) -> Option<u64>
    ensures { result ≡ limit_of (option_to_list limit) }
{
    match limit {
        Some(0) | None => None,
        Some(n) => Some(n),
    }
}

// The numbers of the arguments.
#[derive(Clone, Copy)]
struct Limits {
    packets: Option<u64>,
    bytes: Option<u64>,
}

impl Limits {
    // The limits with one more item, if it is one and its name is new.
    fn with_item(self, item: &[u8]) -> Option<Limits>
        ensures { result ≡ with_item self item.now }
    {
        if let Some(packets) = number_of(b"packets=", item) {
            return match self.packets {
                Some(_) => None,
                None => Some(Limits {
                    packets: Some(packets),
                    bytes: self.bytes,
                }),
            };
        }
        let Some(bytes) = number_of(b"bytes=", item) else {
            return None;
        };
        match self.bytes {
            Some(_) => None,
            None => Some(Limits {
                packets: self.packets,
                bytes: Some(bytes),
            }),
        }
    }
}

fn read_limits(args: &[u8]) -> Option<Limits>
    ensures { result ≡ read_on (Some (limits None None)) (items_of args.now) }
{
    let mut limits = Limits {
        packets: None,
        bytes: None,
    };
    if args.is_empty() {
        return Some(limits);
    }
    let mut rest = Some(args);
    'items: while let Some(text) = rest {
        let (item, more) = first_item(text);
        let Some(next) = limits.with_item(trimmed(item)) else {
            return None;
        };
        limits = next;
        rest = more;
    }
    Some(limits)
}

// Cuts a text at its first comma: returns what stands before it, and what stands after it.
fn first_item(text: &[u8]) -> (&[u8], Option<&[u8]>)
    ensures items { slice_split (λ b. b == 44) text.now ≡ result.0.now ∷ items_after result.1 }
    ensures shorter { IfSome result.1 (λ more. length more.now < length text.now) }
{
    match comma_at(text) {
        Some(end) => (&text[..end], Some(&text[end + 1..])),
        None => (text, None),
    }
}

fn comma_at(text: &[u8]) -> Option<usize>
    ensures { result ≡ position (λ b. b == 44) text.now }
{
    text.iter().position(|byte| *byte == b',')
}

fn number_of(name: &[u8], item: &[u8]) -> Option<u64>
    ensures { result ≡ number_of name.now item.now }
{
    let Some(number) = item.strip_prefix(name) else {
        return None;
    };
    read_decimal(number)
}

fn trimmed(text: &[u8]) -> &[u8]
    ensures { result.now ≡ trimmed text.now }
{
    before_spaces(after_spaces(text))
}

fn after_spaces(text: &[u8]) -> &[u8]
    ensures { result.now ≡ after_spaces text.now }
{
    let mut rest = text;
    'spaces: while let Some((byte, more)) = rest.split_first() {
        if *byte != b' ' {
            break;
        }
        rest = more;
    }
    rest
}

fn before_spaces(text: &[u8]) -> &[u8]
    ensures { result.now ≡ reverse (after_spaces (reverse text.now)) }
{
    let mut rest = text;
    'spaces: while let Some((byte, more)) = rest.split_last() {
        if *byte != b' ' {
            break;
        }
        rest = more;
    }
    rest
}
