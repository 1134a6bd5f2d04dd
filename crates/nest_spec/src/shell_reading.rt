// Reads the words of one shell.
ghost use Rattle.std.specs.Prelude.{◌≡◌, Some, None, Ok, Err, map, string_bytes, unwrap_or, codes, []};
ghost use Rattle.std.specs.Prelude.{MatchResult};
ghost use Rattle.text_base.specs.Numbers.{decimal_of};
ghost use Rattle.nest_spec.specs.Words.{shell_read, delay_ms, delay_words, loss_direction, loss_rate, rate_words};
ghost use Rattle.nest_spec.specs.Words.{loss_words, queue_given, side_words, link_end, link_words};
ghost use Rattle.nest_spec.specs.Words.{is_shell, shell_words};
ghost use Rattle.loss_core.specs.RateValues.{rate_value};
ghost use Rattle.nest_spec.specs.inside.LinkWords.{side_given, rest_given};
ghost use Rattle.nest_spec.specs.inside.ShellWords.{shell_given};

use crate::link_words::{LinkRest, LinkWords, SideWords, read_link_words};
use crate::shell_words::next;
use crate::{LinkSide, NestError, Shell};
use loss_core::{Rate, read_rate};
use packet_queue::{QueueSpec, read_queue};
use packet_record::Direction;
use text_base::limits::HOUR;
use text_base::read_decimal;

// What was read of one shell: what it says, the names of its traces and logs, and the words that follow, the first of
// which is at `place`.
#[derive(Clone, Copy)]
pub(crate) struct ShellRead<'a> {
    pub shell: Shell<LinkSide>,
    pub up_trace: Option<&'a str>,
    pub down_trace: Option<&'a str>,
    pub up_log: Option<&'a str>,
    pub down_log: Option<&'a str>,
    pub place: u32,
    pub rest: &'a [String],
}

// Returns what was read of a shell that has no traces and logs.
fn bare<'a>(shell: Shell<LinkSide>, place: u32, rest: &'a [String]) -> ShellRead<'a>
    ensures { shell_given result ≡ shell_read shell [] [] place (map string_bytes rest.now) }
{
    ShellRead {
        shell,
        up_trace: None,
        down_trace: None,
        up_log: None,
        down_log: None,
        place,
        rest,
    }
}

// Reads the milliseconds of a delay, at most an hour.
fn read_ms(shell: u32, word: &str) -> Result<u64, NestError>
    ensures { result ≡ delay_ms shell (decimal_of word.now) }
{
    match read_decimal(word.as_bytes()) {
        Some(ms) if ms <= HOUR => Ok(ms),
        _ => Err(NestError::BadNumber { shell }),
    }
}

// Reads the words after `mm-delay`.
fn read_delay<'a>(shell: u32, place: u32, words: &'a [String]) -> Result<ShellRead<'a>, NestError>
    ensures { MatchResult result (λ r. delay_words shell place (map string_bytes words.now) ≡ Ok (shell_given r))
        (λ e. delay_words shell place (map string_bytes words.now) ≡ Err e) }
{
    let Some((word, rest)) = words.split_first() else {
        return Err(NestError::MissingWord { shell });
    };
    let ms = read_ms(shell, word.as_str())?;
    Ok(bare(Shell::Delay { ms }, next(place), rest))
}

// Reads the direction of a loss.
fn read_direction(shell: u32, word: &str) -> Result<Direction, NestError>
    ensures { result ≡ loss_direction shell word.now }
{
    match word {
        "uplink" => Ok(Direction::Up),
        "downlink" => Ok(Direction::Down),
        _ => Err(NestError::BadDirection { shell }),
    }
}

// Reads the rate of a loss.
fn read_shell_rate(shell: u32, word: &str) -> Result<Rate, NestError>
    ensures { result ≡ loss_rate shell (rate_value word.now) }
{
    match read_rate(word) {
        Ok(rate) => Ok(rate),
        Err(fault) => Err(NestError::Rate { shell, fault }),
    }
}

// Reads the rate of a loss from the next word.
fn read_rate_word<'a>(
    shell: u32,
    place: u32,
    direction: Direction,
    words: &'a [String],
) -> Result<ShellRead<'a>, NestError>
    ensures { MatchResult result (λ r. rate_words shell place direction (map string_bytes words.now) ≡ Ok
        (shell_given r)) (λ e. rate_words shell place direction (map string_bytes words.now) ≡ Err e) }
{
    let Some((word, rest)) = words.split_first() else {
        return Err(NestError::MissingWord { shell });
    };
    let rate = read_shell_rate(shell, word.as_str())?;
    Ok(bare(Shell::Loss { direction, rate }, next(place), rest))
}

// Reads the words after `mm-loss`.
fn read_loss<'a>(shell: u32, place: u32, words: &'a [String]) -> Result<ShellRead<'a>, NestError>
    ensures { MatchResult result (λ r. loss_words shell place (map string_bytes words.now) ≡ Ok (shell_given r))
        (λ e. loss_words shell place (map string_bytes words.now) ≡ Err e) }
{
    let Some((word, rest)) = words.split_first() else {
        return Err(NestError::MissingWord { shell });
    };
    let direction = read_direction(shell, word.as_str())?;
    read_rate_word(shell, next(place), direction, rest)
}

// Returns the name of a direction's queue, `infinite` where none is given.
fn queue_kind<'a>(side: &SideWords<'a>) -> &'a str
    ensures { result.now ≡ unwrap_or (side_given side.now).queue (codes "infinite") }
{
    match side.queue {
        Some(kind) => kind,
        None => "infinite",
    }
}

// Returns the arguments of a direction's queue, empty where none are given.
fn queue_args<'a>(side: &SideWords<'a>) -> &'a str
    ensures { result.now ≡ unwrap_or (side_given side.now).args [] }
{
    match side.args {
        Some(args) => args,
        None => "",
    }
}

// Reads the queue of a direction.
fn read_side_queue(shell: u32, side: SideWords) -> Result<QueueSpec, NestError>
    ensures { result ≡ queue_given shell (side_given side.entry) }
{
    match read_queue(queue_kind(&side), queue_args(&side)) {
        Ok(queue) => Ok(queue),
        Err(fault) => Err(NestError::Queue { shell, fault }),
    }
}

// Returns one direction of a link: its queue, and whether it is logged.
fn link_side(queue: QueueSpec, side: SideWords) -> LinkSide
    ensures { result ≡ side_words queue (side_given side.entry) }
{
    LinkSide {
        queue,
        logged: side.log.is_some(),
    }
}

// Makes a link of what its words gave: both traces must be given, and then the queues are read, up before down.
fn read_link_end<'a>(shell: u32, read: LinkRest<'a>) -> Result<ShellRead<'a>, NestError>
    ensures { MatchResult result (λ r. link_end shell (rest_given read.entry) ≡ Ok (shell_given r))
        (λ e. link_end shell (rest_given read.entry) ≡ Err e) }
{
    let (Some(up_trace), Some(down_trace)) = (read.given.up.trace, read.given.down.trace) else {
        return Err(NestError::MissingWord { shell });
    };
    let up = read_side_queue(shell, read.given.up)?;
    let down = read_side_queue(shell, read.given.down)?;
    Ok(ShellRead {
        shell: Shell::Link {
            once: read.given.once,
            up: link_side(up, read.given.up),
            down: link_side(down, read.given.down),
        },
        up_trace: Some(up_trace),
        down_trace: Some(down_trace),
        up_log: read.given.up.log,
        down_log: read.given.down.log,
        place: read.place,
        rest: read.rest,
    })
}

// Reads the words after `mm-link`.
fn read_link<'a>(shell: u32, place: u32, words: &'a [String]) -> Result<ShellRead<'a>, NestError>
    ensures { MatchResult result (λ r. link_words shell place (map string_bytes words.now) ≡ Ok (shell_given r))
        (λ e. link_words shell place (map string_bytes words.now) ≡ Err e) }
{
    let read = read_link_words(shell, place, None, LinkWords::new(), words)?;
    read_link_end(shell, read)
}

// Returns whether a word begins a shell.
pub(crate) fn is_shell(word: &str) -> bool
    ensures { result ≡ is_shell word.now }
{
    match word {
        "mm-delay" | "mm-loss" | "mm-link" => true,
        _ => false,
    }
}

// Reads a shell, of which `word` at `place` must be the first word, and `words` are those after it.
pub(crate) fn read_shell<'a>(
    shell: u32,
    place: u32,
    word: &str,
    words: &'a [String],
) -> Result<ShellRead<'a>, NestError>
    ensures { MatchResult result (λ r. shell_words shell place word.now (map string_bytes words.now) ≡ Ok
        (shell_given r)) (λ e. shell_words shell place word.now (map string_bytes words.now) ≡ Err e) }
{
    match word {
        "mm-delay" => read_delay(shell, next(place), words),
        "mm-loss" => read_loss(shell, next(place), words),
        "mm-link" => read_link(shell, next(place), words),
        _ => Err(NestError::UnknownShell { word: place }),
    }
}
