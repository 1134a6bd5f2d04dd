// The command `match`: its words, and the number of the record that answers a request.
ghost use Rattle.std.specs.Prelude.{◌≡◌, ◌<◌, ◌+◌, IfOk, IfErr, length, map, string_bytes};
ghost use Rattle.std.specs.Option.{option_map};
ghost use Rattle.mm_base.specs.Disk.{OnlyReads};
ghost use Rattle.mm_base.specs.Sink.{CountsSinkFaults};
ghost use Rattle.std.specs.Result.{result_ok};
ghost use Rattle.command_ends.specs.Answers.{CountsDisk, cause_in};
ghost use Rattle.command_ends.specs.Ends.{Ends, offline};
ghost use Rattle.command_ends.specs.inside.Ends.{FinishesOnly};
ghost use Rattle.command_ends.specs.Outputs.{prints};
ghost use Rattle.command_ends.specs.Alone.{IsLeftAlone};
ghost use Rattle.command_ends.specs.Stops.{StopsReading};
ghost use Rattle.command_ends.specs.Works.{only};
ghost use Rattle.command_stores.specs.Matching.{GivesMatch, HasNumber, match_job_of, match_reading, match_from};
ghost use Rattle.command_stores.specs.Matching.{match_words, number_text};
ghost use Rattle.command_stores.specs.inside.Values.{match_values};

use crate::port::given_port;
use crate::request_file::load_request;
use command_ends::{Cause, print};
use http_frame::RequestHead;
use mm_base::{Disk, Sink};
use option_words::{Command, WordFault, job_or_fault, read_given};
use record_store::Store;
use request_match::best;
use std::alloc::{AllocError, Global};
use store_files::load_store;
use text_base::{Bytes, OutOfMemory, write_decimal};

// The job of `match`: the names of the files of a store and of a request, and the port that the request is asked at, if
// one is given.
#[derive(Drop)]
pub(crate) struct MatchJob<'a> {
    pub store: &'a str,
    pub request: &'a str,
    pub port: Option<u16>,
}

// Returns the job of what is given of each option.
#[tactic(auto, unfolding(crate::specs::Matching::match_from))]
fn match_job<'a>(given: &[Option<&'a str>]) -> Option<MatchJob<'a>>
    ensures { option_map match_values result ≡ match_from (map (λ o. option_map (λ s. s.now) o) given.now) }
{
    let [store, request, port] = given else {
        return None;
    };
    let port = given_port(*port)?;
    Some(MatchJob {
        store: (*store)?,
        request: (*request)?,
        port,
    })
}

// Returns the job of `words`, or `None` if they have none.
fn find_match<'a>(alloc: Global, words: &'a [String]) -> Result<Option<MatchJob<'a>>, AllocError>
    ensures { IfOk result (λ found. option_map match_values found ≡ match_job_of (map string_bytes words.now)) }
{
    match read_given(alloc, Command::Match, words)? {
        Some(given) => Ok(match_job(&given)),
        None => Ok(None),
    }
}

// Returns the job of `words`, the words after the command's name, or their first fault.
fn read_match<'a>(
    alloc: Global,
    words: &'a [String],
) -> Result<Result<MatchJob<'a>, WordFault>, AllocError>
    ensures { IfOk result (λ read. option_map match_values (result_ok read) ≡ match_job_of (map string_bytes words.now)) }
{
    let found = find_match(alloc, words)?;
    Ok(job_or_fault(found, Command::Match, words))
}

// Returns the number of the record at `place`, counted from 1.
fn number_at(store: &Store, place: usize) -> u64
    requires { place < length store.now }
    ensures { result ≡ place + 1 }
{
    let count = store.records().len(); // fact: a `usize` counts the records, so `place + 1` doesn't overflow
    prove!(place < count);
    place as u64 + 1
}

// Returns the number of the best record for `request`, counted from 1, or `None` if no record agrees with it.
fn best_number(store: &Store, request: &RequestHead, port: Option<u16>) -> Option<u64>
    ensures { HasNumber request.now port store.now result }
{
    match best(store, request, port) {
        Some(place) => Some(number_at(store, place)),
        None => None,
    }
}

// Reads the store and the request of a job, and returns the number of the best record.
fn find_best<D: Disk>(alloc: Global, job: &MatchJob<'_>, disk: &mut D) -> Result<Option<u64>, Cause>
    ensures found { IfOk result (λ number. FinishesOnly GivesMatch (match_reading (match_values job.now))
        (D.view disk.old).files (prints (number_text number))) }
    ensures stopped { IfErr result (λ cause. StopsReading (match_reading (match_values job.now)) (D.view disk.old)
        (D.view disk.new) cause) }
    ensures only_reads { OnlyReads (D.view disk.old) (D.view disk.new) }
{
    let store = load_store(alloc, disk, job.store)?;
    let request = load_request(alloc, disk, job.request)?;
    Ok(best_number(&store, &request, job.port))
}

// Returns the line of a number, or `none`.
fn text_of(alloc: Global, number: Option<u64>) -> Result<Bytes, OutOfMemory>
    ensures { IfOk result (λ text. text ≡ number_text number) }
{
    let mut text = Bytes::new(alloc);
    match number {
        Some(number) => {
            write_decimal(&mut text, number)?;
            text.push(b'\n')?;
        }
        None => text.append(b"none\n")?,
    }
    Ok(text)
}

// Does the job: reads the store and the request, and then prints the number.
fn print_best<D: Disk, O: Sink>(
    alloc: Global,
    job: &MatchJob<'_>,
    disk: &mut D,
    out: &mut O,
) -> Result<(), Cause>
    ensures ends { Ends (only GivesMatch) (match_reading (match_values job.now))
        (offline (D.view disk.old) (O.view out.old)) (offline (D.view disk.new) (O.view out.new)) (cause_in result) }
    ensures counts { CountsDisk (D.view disk.old) (D.view disk.new) }
    ensures out_counts { CountsSinkFaults (O.view out.old) (O.view out.new) }
{
    let number = find_best(alloc, job, disk)?;
    let text = text_of(alloc, number)?;
    print(out, text.as_slice())
}

/// Carries out the command `match`, whose further words are `words`: prints the number, counted from 1, of the record
/// of a store that answers a request, or `none`. No file is written, and no net is touched.
///
/// The cause of an error is a refusal of words or of an input, a fault of the disk or of `out`, or out of memory.
pub fn answer_match<D: Disk, O: Sink>(
    alloc: Global,
    words: &[String],
    disk: &mut D,
    out: &mut O,
) -> Result<(), Cause>
    ensures ends { Ends (only GivesMatch) (match_words (map string_bytes words.now))
        (offline (D.view disk.old) (O.view out.old)) (offline (D.view disk.new) (O.view out.new)) (cause_in result) }
    ensures alone { IsLeftAlone (match_words (map string_bytes words.now)) (D.view disk.old) (D.view disk.new) }
    ensures counts { CountsDisk (D.view disk.old) (D.view disk.new) }
    ensures out_counts { CountsSinkFaults (O.view out.old) (O.view out.new) }
{
    match read_match(alloc, words)? {
        Ok(job) => print_best(alloc, &job, disk, out),
        Err(fault) => Err(Cause::usage(fault)),
    }
}
