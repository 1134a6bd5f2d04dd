// Tests of the words for nests, and of each refusal.
use crate::checks::check;
use crate::nests::{nest_words_of, words_of};
use nest_spec::{NestError, NestWords, read_nest};
use std::alloc::Global;
use std::process::Abort;
use text_base::Text;

// Returns whether the texts are `first` and `second`.
fn are(texts: &[Text], first: &str, second: &str) -> bool {
    match texts {
        [one, two] => one.as_str() == first && two.as_str() == second,
        _ => false,
    }
}

// Words with options in any place.
const THREE_SHELLS: &str =
    "mm-delay 0020 mm-link --uplink-log=u a --once b --downlink-log d -- mm-loss downlink .5";

// Returns whether the words of `THREE_SHELLS` were read: three shells, two traces and two logs.
fn are_three_shells(words: &NestWords) -> bool {
    words.shells().len() == 3 && are(words.traces(), "a", "b") && are(words.logs(), "u", "d")
}

#[test]
fn reads_a_nest(rt: HostRuntime) {
    let words = nest_words_of(&rt, rt.alloc(), THREE_SHELLS);
    check(&rt, are_three_shells(&words), "three shells");
}

// Returns why the words are refused, or `None` where they aren't.
fn refusal(alloc: Global, words: &[String]) -> Option<NestError> {
    read_nest(alloc, words).err()
}

#[test]
fn refuses_no_words(rt: HostRuntime) {
    let refused = refusal(rt.alloc(), &[]) == Some(NestError::NoShell);
    check(&rt, refused, "no shell");
}

// Words in which a ninth shell begins.
const NINE: &str =
    "mm-delay 1 mm-delay 1 mm-delay 1 mm-delay 1 mm-delay 1 mm-delay 1 mm-delay 1 mm-delay 1 mm-delay";

// Words that are refused, with the number of the refusal, the place that it names, and the number of the error inside
// it.
static REFUSED: [(&str, u32, u32, Option<u32>); 29] = [
    ("", 2, 1, None),
    ("mm-delays 5", 2, 1, None),
    ("mm-delay", 3, 1, None),
    ("mm-delay x", 4, 1, None),
    ("mm-delay 3600001", 4, 1, None),
    ("mm-link --foo a b", 5, 2, None),
    ("mm-link - a b", 5, 2, None),
    ("mm-link --once --once a b", 6, 3, None),
    (NINE, 7, 0, None),
    ("mm-link a b --uplink-queue=drophead", 8, 1, Some(3)),
    ("mm-link a b --uplink-queue-args=packets=1", 8, 1, Some(4)),
    (
        "mm-delay 1 mm-link a b --downlink-queue tail",
        8,
        2,
        Some(1),
    ),
    ("mm-loss uplink 1.1", 9, 1, Some(2)),
    ("mm-loss up", 10, 1, None),
    ("mm-loss uplink", 3, 1, None),
    ("mm-link a b c", 2, 4, None),
    ("mm-link a --", 3, 1, None),
    ("mm-link a b --", 3, 1, None),
    ("mm-link a b -- --", 2, 5, None),
    ("mm-link a  b", 3, 1, None),
    ("mm-link a b ", 2, 4, None),
    ("mm-link a -- mm-delay 1", 3, 1, None),
    ("mm-link --once=1 a b", 5, 2, None),
    ("mm-link --once --once=1 a b", 5, 3, None),
    ("mm-link --uplink-log a b", 3, 1, None),
    ("mm-link --uplink-log --once a b", 3, 1, None),
    ("mm-link --uplink-log= a b", 3, 1, None),
    ("mm-link --uplink-log=-x a b", 5, 2, None),
    ("mm-link a b --uplink-log=x --uplink-log", 6, 5, None),
];

// Returns whether the words are refused as `said`: the number, the place, and the number inside.
fn is_refused(rt: &impl Abort, alloc: Global, text: &str, said: (u32, u32, Option<u32>)) -> bool {
    match refusal(alloc, words_of(rt, alloc, text).as_slice()) {
        None => false,
        Some(fault) => (fault.number(), fault.place(), fault.inner()) == said,
    }
}

#[test]
fn refuses_the_first(rt: HostRuntime) {
    for &(text, number, place, inner) in &REFUSED {
        check(
            &rt,
            is_refused(&rt, rt.alloc(), text, (number, place, inner)),
            text,
        );
    }
}
