// The queue of a link that is refused.
use crate::shells::option_value;
use packet_queue::{QueueError, read_queue};
use std::fmt;

/// The queue of a link that is refused: the words that state it, and why.
#[derive(Drop)]
pub(crate) struct QueueFault<'a> {
    kind: &'a str,
    /// The option of the limits.
    option: &'static str,
    limits: &'a str,
    error: Option<QueueError>,
}

impl<'a> QueueFault<'a> {
    // Returns the queue that the words of a link state by these options, and why it is refused if it is.
    fn of(kind: &str, option: &'static str, words: &'a [String]) -> Self {
        let kind = option_value(kind, words).unwrap_or("infinite");
        let limits = option_value(option, words).unwrap_or("");
        QueueFault {
            kind,
            option,
            limits,
            error: read_queue(kind, limits).err(),
        }
    }

    /// Returns the queue of a link's words that is refused: that of the uplink, or else that of the downlink.
    pub(crate) fn new(words: &'a [String]) -> Self {
        let up = QueueFault::of("--uplink-queue", "--uplink-queue-args", words);
        if up.error.is_some() {
            return up;
        }
        QueueFault::of("--downlink-queue", "--downlink-queue-args", words)
    }
}

impl fmt::Display for QueueFault<'_> {
    fn fmt<W: fmt::Write>(&self, f: &mut fmt::Formatter<W>) -> fmt::Result {
        let QueueFault {
            kind,
            option,
            limits,
            error,
        } = self;
        match error {
            Some(QueueError::UnknownKind) => {
                write!(f, "no queue '{kind}' (infinite, droptail, drophead)")
            }
            Some(QueueError::BadArgs) => write!(
                f,
                "{option}: '{limits}': write packets=100, bytes=150000 or both with a comma between"
            ),
            Some(QueueError::NoLimit) => write!(
                f,
                "{kind} needs {option}=packets=N, bytes=N or both with a comma between (N above 0)"
            ),
            Some(QueueError::LimitOnInfinite) | None => write!(
                f,
                "the queue infinite has no limit ({option} is '{limits}'); droptail and drophead have"
            ),
        }
    }
}
