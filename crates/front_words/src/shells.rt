// Where the shells of a nest stand among its words, and the traces of its links.
use option_words::{begins_with_hyphen, end_of_options, name_and_value};

// How many shells a nest has at most.
const MOST_SHELLS: u64 = 8;

/// The words that begin a shell.
pub(crate) const SHELLS: &[&str] = &["mm-delay", "mm-loss", "mm-link"];

/// The option of a link that takes no value.
pub(crate) const ONCE: &str = "--once";

/// The options of a link.
pub(crate) const LINK_OPTIONS: &[&str] = &[
    "--uplink-log",
    "--downlink-log",
    "--uplink-queue",
    "--downlink-queue",
    "--uplink-queue-args",
    "--downlink-queue-args",
    ONCE,
];

/// What the word of a delay must be.
pub(crate) const MILLISECONDS: &str = "a whole number of milliseconds, 0 to 3600000";

/// Returns whether a word begins a shell.
pub(crate) fn is_shell(word: &str) -> bool {
    matches!(word, "mm-delay" | "mm-loss" | "mm-link")
}

/// Returns the words of the shells: those after the first `--`.
pub(crate) fn shells_of(words: &[String]) -> &[String] {
    match end_of_options(words) {
        Some(end) => &words[end + 1..],
        None => &[],
    }
}

/// What a word of a link is.
#[derive(Clone, Copy)]
pub(crate) enum LinkWord<'a> {
    /// An option, whose value may stand in the same word.
    Option,
    /// The value of this option.
    Value(&'a str),
    Trace { up: bool },
    /// The first word that isn't of the link.
    End,
}

/// Reads the words of a link, one by one.
#[derive(Drop)]
pub(crate) struct LinkReader<'a> {
    /// The option whose value is the next word.
    pub waiting: Option<&'a str>,
    /// How many traces were read.
    pub traces: u32,
}

// Returns whether this option of a link takes the next word as its value.
fn takes_next(word: &str) -> bool {
    word != ONCE && is_link_option(word)
}

/// Returns whether this is an option of a link.
pub(crate) fn is_link_option(word: &str) -> bool {
    LINK_OPTIONS.iter().any(|option| *option == word)
}

impl<'a> LinkReader<'a> {
    /// Returns a reader that has read nothing.
    pub(crate) fn new() -> Self {
        LinkReader {
            waiting: None,
            traces: 0,
        }
    }

    /// Reads a word.
    pub(crate) fn read(&mut self, word: &'a str) -> LinkWord<'a> {
        if let Some(option) = self.waiting {
            self.waiting = None;
            return LinkWord::Value(option);
        }
        if word == "--" {
            return LinkWord::End;
        }
        if begins_with_hyphen(word) {
            if takes_next(word) {
                self.waiting = Some(word);
            }
            return LinkWord::Option;
        }
        match self.traces {
            0 | 1 => {
                self.traces += 1;
                LinkWord::Trace {
                    up: self.traces == 1,
                }
            }
            _ => LinkWord::End,
        }
    }
}

// Returns how many of these words are those of a link.
fn link_length(words: &[String]) -> usize {
    let mut reader = LinkReader::new();
    for (i, word) in words.iter().enumerate() {
        if let LinkWord::End = reader.read(word.as_str()) {
            return i;
        }
    }
    words.len()
}

// Returns how many words the first shell has.
fn shell_length(words: &[String]) -> usize {
    let Some((word, rest)) = words.split_first() else {
        return 0;
    };
    let length = match word.as_str() {
        "mm-delay" => 1,
        "mm-loss" => 2,
        "mm-link" => link_length(rest),
        _ => 0,
    };
    length.min(rest.len()) + 1
}

/// Returns the words of the first shell, and those from the next shell on.
pub(crate) fn split_shell(words: &[String]) -> (&[String], &[String]) {
    let (shell, rest) = words.split_at(shell_length(words).min(words.len()));
    match rest.split_first() {
        Some((word, after)) if word.as_str() == "--" => (shell, after),
        _ => (shell, rest),
    }
}

/// Returns the words from the shell on before which `before` shells stand.
pub(crate) fn words_from(before: u64, words: &[String]) -> &[String] {
    let mut words = words;
    for _ in 0..before.min(MOST_SHELLS) {
        let (_, rest) = split_shell(words);
        words = rest;
    }
    words
}

/// Returns the value that these words give an option, up to a word `--`.
pub(crate) fn option_value<'a>(option: &str, words: &'a [String]) -> Option<&'a str> {
    for (i, word) in words.iter().enumerate() {
        let word = word.as_str();
        if word == "--" {
            return None;
        }
        let (name, value) = name_and_value(word);
        if name == option {
            return match (value, words.get(i + 1)) {
                (None, Some(next)) => Some(next.as_str()),
                (value, _) => value,
            };
        }
    }
    None
}

/// Which trace of a nest: the number of its shell, from 1, and whether it is the uplink's.
#[derive(Clone, Copy, PartialEq, Eq)]
pub(crate) struct TraceAt {
    pub shell: u64,
    pub up: bool,
}

// Returns whether the trace of this name is the uplink's, if the words of a shell are a link's and have it.
fn side_of(name: &str, words: &[String]) -> Option<bool> {
    let (word, words) = words.split_first()?;
    if word.as_str() != "mm-link" {
        return None;
    }
    let mut reader = LinkReader::new();
    for word in words {
        match reader.read(word.as_str()) {
            LinkWord::Trace { up } if word.as_str() == name => return Some(up),
            _ => {}
        }
    }
    None
}

/// Returns the first trace of this name in a nest, of which these are the words.
pub(crate) fn trace_named(name: &str, words: &[String]) -> Option<TraceAt> {
    let mut words = words;
    for before in 0..MOST_SHELLS {
        let (shell, rest) = split_shell(words);
        if let Some(up) = side_of(name, shell) {
            return Some(TraceAt {
                shell: before + 1,
                up,
            });
        }
        words = rest;
    }
    None
}
