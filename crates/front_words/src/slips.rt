// Words that are one slip away from a known one: a byte changed, added or left out, or two neighbours exchanged.

// Returns the two texts from the first byte on in which they differ.
fn differing<'a>(typed: &'a [u8], known: &'a [u8]) -> (&'a [u8], &'a [u8]) {
    let least = typed.len().min(known.len());
    for i in 0..least {
        if typed[i] != known[i] {
            return (&typed[i..], &known[i..]);
        }
    }
    (&typed[least..], &known[least..])
}

/// Returns whether what was typed is the known text, but for one slip at most.
pub(crate) fn is_slip(typed: &[u8], known: &[u8]) -> bool {
    let (typed, known) = differing(typed, known);
    let Some((_, typed_rest)) = typed.split_first() else {
        return known.len() <= 1;
    };
    let Some((_, known_rest)) = known.split_first() else {
        return typed.len() <= 1;
    };
    typed_rest == known_rest
        || typed_rest == known
        || typed == known_rest
        || is_swapped(typed, known)
}

// Returns whether two texts differ only in the order of their first two bytes.
fn is_swapped(typed: &[u8], known: &[u8]) -> bool {
    match (typed, known) {
        ([a, b, typed @ ..], [c, d, known @ ..]) => a == d && b == c && typed == known,
        _ => false,
    }
}

/// Returns the first of the known words that is at most one slip away from what was typed.
pub(crate) fn nearest(known: &[&'static str], typed: &str) -> Option<&'static str> {
    for word in known {
        if is_slip(typed.as_bytes(), word.as_bytes()) {
            return Some(*word);
        }
    }
    None
}
