// The command `record`: its words, the two streams of a connection, and the store that is made of them.
ghost use Rattle.std.specs.Prelude.{◌≡◌, ℕ, List, Err, IfOk, IfErr, map, string_bytes, OnOk};
ghost use Rattle.std.specs.Option.{option_map};
ghost use Rattle.mm_base.specs.Disk.{DiskView, OnlyReads};
ghost use Rattle.mm_base.specs.Sink.{SinkView};
ghost use Rattle.record_store.specs.Pairs.{Pairs};
ghost use Rattle.std.specs.Result.{result_ok};
ghost use Rattle.command_ends.specs.Answers.{CountsDisk, cause_in};
ghost use Rattle.command_ends.specs.Ends.{Ends, offline};
ghost use Rattle.command_ends.specs.inside.Ends.{FinishesOnly};
ghost use Rattle.command_ends.specs.Outputs.{writes};
ghost use Rattle.command_ends.specs.Alone.{IsLeftAlone};
ghost use Rattle.command_ends.specs.inside.Accepted.{AcceptsWords};
ghost use Rattle.command_ends.specs.Stops.{StopsReading};
ghost use Rattle.command_ends.specs.inside.Stops.{ReadsOn, RefusesBy};
ghost use Rattle.command_ends.specs.Works.{only};
ghost use Rattle.command_stores.specs.Recording.{GivesRecord, PairVerdict, record_inputs, record_job_of};
ghost use Rattle.command_stores.specs.Recording.{record_reading};
ghost use Rattle.command_stores.specs.Recording.{record_from, record_words, stream_named};
ghost use Rattle.command_stores.specs.inside.Values.{record_values};
ghost use Rattle.store_files.specs.Written.{store_file};

use crate::names::check_names;
use crate::port::given_port;
use command_ends::{Cause, Refusal, read_input};
use mm_base::Disk;
use option_words::{Command, WordFault, job_or_fault, read_given};
use record_store::{PairError, Store, pair};
use std::alloc::{AllocError, Global};
use store_files::write_store;
use text_base::Text;

// The job of `record`: the names of the files of the two streams and of the store, and the port that each record gets,
// which is that of the server, or 0 for any.
#[derive(Drop)]
pub(crate) struct RecordJob<'a> {
    pub client: &'a str,
    pub server: &'a str,
    pub out: &'a str,
    pub port: u16,
}

// Returns the job of what is given of each option. The port is 0 if none is given.
#[tactic(auto, unfolding(crate::specs::Recording::record_from))]
fn record_job<'a>(given: &[Option<&'a str>]) -> Option<RecordJob<'a>>
    ensures { option_map record_values result ≡ record_from (map (λ o. option_map (λ s. s.now) o) given.now) }
{
    let [client, server, out, port] = given else {
        return None;
    };
    let port = given_port(*port)?;
    Some(RecordJob {
        client: (*client)?,
        server: (*server)?,
        out: (*out)?,
        port: port.unwrap_or(0),
    })
}

// Returns the job of `words`, or `None` if they have none.
fn find_record<'a>(alloc: Global, words: &'a [String]) -> Result<Option<RecordJob<'a>>, AllocError>
    ensures { IfOk result (λ found. option_map record_values found ≡ record_job_of (map string_bytes words.now)) }
{
    match read_given(alloc, Command::Record, words)? {
        Some(given) => Ok(record_job(&given)),
        None => Ok(None),
    }
}

// Returns the job of `words`, the words after the command's name, or their first fault.
fn read_record<'a>(
    alloc: Global,
    words: &'a [String],
) -> Result<Result<RecordJob<'a>, WordFault>, AllocError>
    ensures { IfOk result (λ read. option_map record_values (result_ok read) ≡ record_job_of (map string_bytes words.now)) }
{
    let found = find_record(alloc, words)?;
    Ok(job_or_fault(found, Command::Record, words))
}

// Returns the name of the file that a refusal of the streams names: the client's for a bad request, else the server's.
fn stream_named<'a>(job: &RecordJob<'a>, error: PairError) -> &'a str
    ensures { result.now ≡ stream_named (record_values job.now) error }
{
    match error {
        PairError::BadRequest { .. } => job.client,
        PairError::BadResponse { .. }
        | PairError::Unanswered { .. }
        | PairError::ExtraResponse
        | PairError::OutOfMemory => job.server,
    }
}

// Returns the cause of streams that don't pair.
fn pair_cause(alloc: Global, job: &RecordJob<'_>, error: PairError) -> Cause
    ensures { (client server : List ℕ) → Pairs client server job.now.port (Err error)
        → RefusesBy (PairVerdict (record_values job.now) client server) result }
{
    match error {
        PairError::OutOfMemory => Cause::OutOfMemory,
        _ => match Text::from_text(alloc, stream_named(job, error)) {
            Ok(name) => Cause::Refused(Refusal::BadInput {
                name,
                number: error.number(),
                place: error.request(),
            }),
            Err(_) => Cause::OutOfMemory,
        },
    }
}

// Reads the streams of a job, and returns the store of their pairs.
fn load_pairs<D: Disk>(alloc: Global, job: &RecordJob<'_>, disk: &mut D) -> Result<Store, Cause>
    ensures found { IfOk result (λ store. FinishesOnly GivesRecord (record_inputs (record_values job.now))
        (D.view disk.old).files (writes (store_file job.now.out.now store))) }
    ensures stopped { IfErr result (λ cause. StopsReading (record_inputs (record_values job.now)) (D.view disk.old)
        (D.view disk.new) cause) }
    ensures only_reads { OnlyReads (D.view disk.old) (D.view disk.new) }
{
    let client = read_input(alloc, disk, job.client)?;
    let server = read_input(alloc, disk, job.server)?;
    match pair(alloc, client.as_slice(), server.as_slice(), job.port) {
        Ok(store) => Ok(store),
        Err(error) => Err(pair_cause(alloc, job, error)),
    }
}

// Refuses an output that has the name of an input.
fn check_record(alloc: Global, job: &RecordJob<'_>) -> Result<(), Cause>
    ensures read { (disk : DiskView) → ReadsOn (record_reading (record_values job.now))
        (λ _. record_inputs (record_values job.now)) disk disk result }
    ensures accepts { OnOk result (AcceptsWords (record_reading (record_values job.now))) }
{
    check_names(alloc, &[job.client, job.server], job.out)
}

// Does the job: reads its streams, pairs them, and then writes the store.
fn make_store<D: Disk>(alloc: Global, job: &RecordJob<'_>, disk: &mut D) -> Result<(), Cause>
    ensures ends { (out : SinkView) → Ends (only GivesRecord) (record_reading (record_values job.now))
        (offline (D.view disk.old) out) (offline (D.view disk.new) out) (cause_in result) }
    ensures alone { IsLeftAlone (record_reading (record_values job.now)) (D.view disk.old) (D.view disk.new) }
    ensures counts { CountsDisk (D.view disk.old) (D.view disk.new) }
{
    check_record(alloc, job)?;
    let store = load_pairs(alloc, job, disk)?;
    write_store(alloc, disk, job.out, &store)
}

/// Carries out the command `record`, whose further words are `words`: pairs the two byte streams of a connection, and
/// writes the store of the pairs. Nothing is printed, and no net is touched.
///
/// The cause of an error is a refusal of words or of an input, a fault of the disk, or out of memory.
pub fn answer_record<D: Disk>(alloc: Global, words: &[String], disk: &mut D) -> Result<(), Cause>
    ensures ends { (out : SinkView) → Ends (only GivesRecord) (record_words (map string_bytes words.now))
        (offline (D.view disk.old) out) (offline (D.view disk.new) out) (cause_in result) }
    ensures alone { IsLeftAlone (record_words (map string_bytes words.now)) (D.view disk.old) (D.view disk.new) }
    ensures counts { CountsDisk (D.view disk.old) (D.view disk.new) }
{
    match read_record(alloc, words)? {
        Ok(job) => make_store(alloc, &job, disk),
        Err(fault) => Err(Cause::usage(fault)),
    }
}
