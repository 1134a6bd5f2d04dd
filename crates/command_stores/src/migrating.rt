// The command `migrate`: its words, and the store that it writes in form 2.
ghost use Rattle.std.specs.Prelude.{◌≡◌, IfOk, IfErr, map, string_bytes, OnOk};
ghost use Rattle.std.specs.Option.{option_map};
ghost use Rattle.std.specs.Result.{result_ok};
ghost use Rattle.mm_base.specs.Disk.{DiskView, OnlyReads};
ghost use Rattle.mm_base.specs.Sink.{SinkView};
ghost use Rattle.command_ends.specs.Answers.{CountsDisk, cause_in};
ghost use Rattle.command_ends.specs.Ends.{Ends, offline};
ghost use Rattle.command_ends.specs.inside.Ends.{FinishesOnly};
ghost use Rattle.command_ends.specs.Outputs.{writes};
ghost use Rattle.command_ends.specs.Alone.{IsLeftAlone};
ghost use Rattle.command_ends.specs.inside.Accepted.{AcceptsWords};
ghost use Rattle.command_ends.specs.Stops.{StopsReading};
ghost use Rattle.command_ends.specs.inside.Stops.{ReadsOn};
ghost use Rattle.command_ends.specs.Works.{only};
ghost use Rattle.command_stores.specs.Migrating.{GivesMigrate, migrate_inputs, migrate_job_of, migrate_reading};
ghost use Rattle.command_stores.specs.Migrating.{migrate_from, migrate_words};
ghost use Rattle.command_stores.specs.inside.Values.{migrate_values};
ghost use Rattle.store_files.specs.Written.{store_file};

use crate::names::check_names;
use command_ends::Cause;
use mm_base::Disk;
use option_words::{Command, WordFault, job_or_fault, read_given};
use record_store::Store;
use std::alloc::{AllocError, Global};
use store_files::{load_store_as, write_store};

// The job of `migrate`: the names of the files of a store in either form, and of the same store in form 2, and whether
// the last record may be cut.
#[derive(Drop)]
pub(crate) struct MigrateJob<'a> {
    pub store: &'a str,
    pub out: &'a str,
    pub cut: bool,
}

// Returns the job of what is given of each option.
#[tactic(auto, unfolding(crate::specs::Migrating::migrate_from))]
fn migrate_job<'a>(given: &[Option<&'a str>]) -> Option<MigrateJob<'a>>
    ensures { option_map migrate_values result ≡ migrate_from (map (λ o. option_map (λ s. s.now) o) given.now) }
{
    let [store, out, cut] = given else {
        return None;
    };
    Some(MigrateJob {
        store: (*store)?,
        out: (*out)?,
        cut: cut.is_some(),
    })
}

// Returns the job of `words`, or `None` if they have none.
fn find_migrate<'a>(
    alloc: Global,
    words: &'a [String],
) -> Result<Option<MigrateJob<'a>>, AllocError>
    ensures { IfOk result (λ found. option_map migrate_values found ≡ migrate_job_of (map string_bytes words.now)) }
{
    match read_given(alloc, Command::Migrate, words)? {
        Some(given) => Ok(migrate_job(&given)),
        None => Ok(None),
    }
}

// Returns the job of `words`, the words after the command's name, or their first fault.
fn read_migrate<'a>(
    alloc: Global,
    words: &'a [String],
) -> Result<Result<MigrateJob<'a>, WordFault>, AllocError>
    ensures { IfOk result (λ read. option_map migrate_values (result_ok read) ≡ migrate_job_of (map string_bytes words.now)) }
{
    let found = find_migrate(alloc, words)?;
    Ok(job_or_fault(found, Command::Migrate, words))
}

// Refuses an output that has the name of the input.
fn check_migrate(alloc: Global, job: &MigrateJob<'_>) -> Result<(), Cause>
    ensures read { (disk : DiskView) → ReadsOn (migrate_reading (migrate_values job.now))
        (λ _. migrate_inputs (migrate_values job.now)) disk disk result }
    ensures accepts { OnOk result (AcceptsWords (migrate_reading (migrate_values job.now))) }
{
    check_names(alloc, &[job.store], job.out)
}

// Returns the store of a job.
fn load_old<D: Disk>(alloc: Global, job: &MigrateJob<'_>, disk: &mut D) -> Result<Store, Cause>
    ensures found { IfOk result (λ store. FinishesOnly GivesMigrate (migrate_inputs (migrate_values job.now))
        (D.view disk.old).files (writes (store_file job.now.out.now store))) }
    ensures stopped { IfErr result (λ cause. StopsReading (migrate_inputs (migrate_values job.now)) (D.view disk.old)
        (D.view disk.new) cause) }
    ensures only_reads { OnlyReads (D.view disk.old) (D.view disk.new) }
{
    load_store_as(alloc, disk, job.store, job.cut)
}

// Does the job: reads the store in either form, and then writes it in form 2.
fn migrate<D: Disk>(alloc: Global, job: &MigrateJob<'_>, disk: &mut D) -> Result<(), Cause>
    ensures ends { (out : SinkView) → Ends (only GivesMigrate) (migrate_reading (migrate_values job.now))
        (offline (D.view disk.old) out) (offline (D.view disk.new) out) (cause_in result) }
    ensures alone { IsLeftAlone (migrate_reading (migrate_values job.now)) (D.view disk.old) (D.view disk.new) }
    ensures counts { CountsDisk (D.view disk.old) (D.view disk.new) }
{
    check_migrate(alloc, job)?;
    let store = load_old(alloc, job, disk)?;
    write_store(alloc, disk, job.out, &store)
}

/// Carries out the command `migrate`, whose further words are `words`: reads a store in either form, and writes it in
/// form 2. With `--cut` a last record within which the store's file ends is left out. Nothing is printed, and no net is
/// touched.
///
/// The cause of an error is a refusal of words or of the store, a fault of the disk, or out of memory.
pub fn answer_migrate<D: Disk>(alloc: Global, words: &[String], disk: &mut D) -> Result<(), Cause>
    ensures ends { (out : SinkView) → Ends (only GivesMigrate) (migrate_words (map string_bytes words.now))
        (offline (D.view disk.old) out) (offline (D.view disk.new) out) (cause_in result) }
    ensures alone { IsLeftAlone (migrate_words (map string_bytes words.now)) (D.view disk.old) (D.view disk.new) }
    ensures counts { CountsDisk (D.view disk.old) (D.view disk.new) }
{
    match read_migrate(alloc, words)? {
        Ok(job) => migrate(alloc, &job, disk),
        Err(fault) => Err(Cause::usage(fault)),
    }
}
