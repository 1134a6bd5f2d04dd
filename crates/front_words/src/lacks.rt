// What the words of the last shell of a nest lack.
use crate::shells::{LinkReader, LinkWord, MILLISECONDS};
use option_words::begins_with_hyphen;
use std::fmt;

/// What the words of the last shell of a nest lack.
#[derive(Drop)]
pub(crate) enum Lack<'a> {
    Milliseconds,
    DirectionAndRate,
    /// The rate of a loss in this direction.
    Rate(&'a str),
    /// The value of this option of a link.
    Value(&'a str),
    Traces,
    /// Nothing, but no shell follows the `--` after it.
    Shell,
}

// Returns whether the value of this option of a link can't be this word.
fn is_no_value(option: &str, word: &str) -> bool {
    begins_with_hyphen(word)
        || word.is_empty() && matches!(option, "--uplink-log" | "--downlink-log")
}

// Returns whether a word gives a log no name.
fn is_empty_log(word: &str) -> bool {
    matches!(word, "--uplink-log=" | "--downlink-log=")
}

impl<'a> Lack<'a> {
    /// Returns what these words lack, which are those of the last shell.
    pub(crate) fn of(words: &'a [String]) -> Self {
        let Some((shell, words)) = words.split_first() else {
            return Lack::Shell;
        };
        match (shell.as_str(), words) {
            ("mm-delay", []) => Lack::Milliseconds,
            ("mm-loss", []) => Lack::DirectionAndRate,
            ("mm-loss", [direction]) => Lack::Rate(direction.as_str()),
            ("mm-link", words) => Lack::of_link(words),
            _ => Lack::Shell,
        }
    }

    // Returns what is missing of a link that has this number of traces.
    fn of_traces(traces: u32) -> Self {
        match traces {
            0 | 1 => Lack::Traces,
            _ => Lack::Shell,
        }
    }

    // Returns what the words of a link lack.
    fn of_link(words: &'a [String]) -> Self {
        let mut reader = LinkReader::new();
        for word in words {
            let word = word.as_str();
            let traces = reader.traces;
            match reader.read(word) {
                LinkWord::Value(option) if is_no_value(option, word) => return Lack::Value(option),
                LinkWord::Option if is_empty_log(word) => return Lack::Value(word),
                LinkWord::Trace { .. } if word.is_empty() => return Lack::of_traces(traces),
                LinkWord::End => return Lack::of_traces(traces),
                _ => {}
            }
        }
        match reader.waiting {
            Some(option) => Lack::Value(option),
            None => Lack::of_traces(reader.traces),
        }
    }
}

impl fmt::Display for Lack<'_> {
    fn fmt<W: fmt::Write>(&self, f: &mut fmt::Formatter<W>) -> fmt::Result {
        match self {
            Lack::Milliseconds => write!(f, "mm-delay needs {MILLISECONDS}"),
            Lack::DirectionAndRate => write!(f, "mm-loss needs 'uplink' or 'downlink', and a rate"),
            Lack::Rate(side) => write!(f, "mm-loss {side} needs a rate from 0 to 1, as 0.01"),
            Lack::Value(option) => write!(f, "mm-link: {option} needs a value"),
            Lack::Traces => write!(f, "mm-link needs two traces, UP and DOWN"),
            Lack::Shell => write!(f, "a shell must follow '--'"),
        }
    }
}
