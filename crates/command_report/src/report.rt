// Carries out the command `report`: reads its words and its log, and prints the report or the series.
ghost use Rattle.std.specs.Prelude.{◌≡◌, ◌≢◌, ◌≤◌, ℕ, List, Some, None, IfOk, IfErr, MatchResult, map, string_bytes};
ghost use Rattle.mm_base.specs.Disk.{OnlyReads};
ghost use Rattle.mm_base.specs.Sink.{CountsSinkFaults};
ghost use Rattle.shell_log.specs.Reading.{log_fault};
ghost use Rattle.log_report.specs.ReportBuilder.{HasRead};
ghost use Rattle.command_ends.specs.Answers.{CountsDisk, cause_in};
ghost use Rattle.command_ends.specs.Ends.{Ends, offline};
ghost use Rattle.command_ends.specs.inside.Ends.{FinishesOnly};
ghost use Rattle.command_ends.specs.Outputs.{prints};
ghost use Rattle.command_ends.specs.Alone.{IsLeftAlone};
ghost use Rattle.command_ends.specs.Stops.{IsInput, RefusesText, StopsAtFile, StopsReading};
ghost use Rattle.command_ends.specs.Works.{only};
ghost use Rattle.command_report.specs.Report.{GivesReport, IsReport, sums_text};
ghost use Rattle.command_report.specs.ReportReading.{log_refusal, report_reading, report_words};
ghost use Rattle.command_report.specs.inside.Values.{report_values};

use crate::report_form::{ReportForm, ReportJob, SumsForm};
use crate::report_job::read_report;
use crate::series::{load_log, print_series};
use command_ends::{Cause, Refusal, input_size, print, read_pieces};
use log_report::{EMPTY, Report, ReportBuilder, print_json, print_report};
use mm_base::{Disk, Sink};
use shell_log::LogError;
use std::alloc::Global;
use text_base::{Bytes, OutOfMemory, Text};

// Returns the cause for which a log's text, in the file `name`, isn't accepted.
pub(crate) fn log_cause(name: Text, error: LogError) -> Cause
    ensures { (text : List ℕ) → (error ≢ LogError.OutOfMemory → log_fault text ≡ Some error)
        → RefusesText (log_refusal name text) result }
{
    match error {
        LogError::OutOfMemory => Cause::OutOfMemory,
        _ => Cause::Refused(Refusal::BadInput {
            name,
            number: error.number(),
            place: error.line(),
        }),
    }
}

// Reads a log's text from the file `name`, in pieces.
fn read_log_file<D: Disk>(alloc: Global, disk: &mut D, name: &str) -> Result<ReportBuilder, Cause>
    ensures read { IfOk result (λ text. ((bytes : List ℕ) × IsInput (D.view disk.old).files name.now bytes
        × HasRead bytes text)) }
    ensures stopped { IfErr result (λ cause. StopsAtFile name.now (D.view disk.old) (D.view disk.new) cause) }
    ensures only_reads { OnlyReads (D.view disk.old) (D.view disk.new) }
{
    let size = input_size(alloc, disk, name)?;
    let mut text = ReportBuilder::new(alloc)?;
    read_pieces(alloc, disk, name, size, &mut text)?;
    Ok(text)
}

// Returns the report of the log whose text was read, or `None` if the log has no entry. A refusal names the file
// `name`.
fn report_of(alloc: Global, name: &str, text: ReportBuilder) -> Result<Option<Report>, Cause>
    ensures report { (bytes : List ℕ) → HasRead bytes text → IfOk result (λ report. IsReport bytes report) }
    ensures refused { (bytes : List ℕ) → HasRead bytes text
        → MatchResult result (λ _. log_refusal name.now bytes ≡ None)
        (λ cause. RefusesText (log_refusal name.now bytes) cause) }
{
    match text.finish() {
        Ok(report) => Ok(report),
        Err(error) => Err(log_cause(Text::from_text(alloc, name)?, error)),
    }
}

// Reads the log of a job and returns its report, or `None` if the log has no entry.
fn load_report<D: Disk>(
    alloc: Global,
    disk: &mut D,
    job: &ReportJob<'_>,
) -> Result<Option<Report>, Cause>
    ensures found { (form : SumsForm) → job.now.form ≡ ReportForm.Sums form
        → IfOk result (λ report. FinishesOnly GivesReport (report_reading (report_values job.now))
        (D.view disk.old).files (prints (sums_text form report))) }
    ensures stopped { IfErr result (λ cause. StopsReading (report_reading (report_values job.now)) (D.view disk.old)
        (D.view disk.new) cause) }
    ensures only_reads { OnlyReads (D.view disk.old) (D.view disk.new) }
{
    let text = read_log_file(alloc, disk, job.log)?;
    report_of(alloc, job.log, text)
}

// Returns the text of the sums of a log, which are none if the log has no entry.
fn text_of(alloc: Global, form: SumsForm, report: &Option<Report>) -> Result<Bytes, OutOfMemory>
    ensures { IfOk result (λ text. text ≡ sums_text form report.now) }
{
    match (form, report) {
        (SumsForm::Json, report) => print_json(alloc, report),
        (SumsForm::Lines, Some(report)) => print_report(alloc, report),
        (SumsForm::Lines, None) => Bytes::from_slice(alloc, EMPTY),
    }
}

// Reads the log of a job, and then prints its sums.
fn report_sums<D: Disk, O: Sink>(
    alloc: Global,
    job: &ReportJob<'_>,
    form: SumsForm,
    disk: &mut D,
    out: &mut O,
) -> Result<(), Cause>
    requires { job.now.form ≡ ReportForm.Sums form }
    ensures ends { Ends (only GivesReport) (report_reading (report_values job.now))
        (offline (D.view disk.old) (O.view out.old)) (offline (D.view disk.new) (O.view out.new)) (cause_in result) }
    ensures counts { CountsDisk (D.view disk.old) (D.view disk.new) }
    ensures out_counts { CountsSinkFaults (O.view out.old) (O.view out.new) }
{
    let report = load_report(alloc, disk, job)?;
    let text = text_of(alloc, form, &report)?;
    print(out, text.as_slice())
}

// Reads the log of a job, and then prints its series in bins of `every` milliseconds.
fn report_series<D: Disk, O: Sink>(
    alloc: Global,
    job: &ReportJob<'_>,
    every: u64,
    disk: &mut D,
    out: &mut O,
) -> Result<(), Cause>
    requires form { job.now.form ≡ ReportForm.Series every }
    requires some { 1 ≤ every }
    requires most { every ≤ 3600000 }
    ensures ends { Ends (only GivesReport) (report_reading (report_values job.now))
        (offline (D.view disk.old) (O.view out.old)) (offline (D.view disk.new) (O.view out.new)) (cause_in result) }
    ensures counts { CountsDisk (D.view disk.old) (D.view disk.new) }
    ensures out_counts { CountsSinkFaults (O.view out.old) (O.view out.new) }
{
    let log = load_log(alloc, disk, job)?;
    print_series(alloc, out, &log, every)
}

// Does the job: reads its log, and then prints what is asked for.
fn report<D: Disk, O: Sink>(
    alloc: Global,
    job: &ReportJob<'_>,
    disk: &mut D,
    out: &mut O,
) -> Result<(), Cause>
    ensures ends { Ends (only GivesReport) (report_reading (report_values job.now))
        (offline (D.view disk.old) (O.view out.old)) (offline (D.view disk.new) (O.view out.new)) (cause_in result) }
    ensures counts { CountsDisk (D.view disk.old) (D.view disk.new) }
    ensures out_counts { CountsSinkFaults (O.view out.old) (O.view out.new) }
{
    match job.form {
        ReportForm::Sums(form) => report_sums(alloc, job, form, disk, out),
        ReportForm::Series(every) => report_series(alloc, job, every, disk, out),
    }
}

/// Carries out the command `report`, whose further words are `words`: prints the sums of a log, in lines or as an
/// object, or its series. No file is written, and no net is touched.
///
/// The cause of an error is a refusal of words or of the log, a fault of the disk or of `out`, or out of memory.
pub fn answer_report<D: Disk, O: Sink>(
    alloc: Global,
    words: &[String],
    disk: &mut D,
    out: &mut O,
) -> Result<(), Cause>
    ensures ends { Ends (only GivesReport) (report_words (map string_bytes words.now))
        (offline (D.view disk.old) (O.view out.old)) (offline (D.view disk.new) (O.view out.new)) (cause_in result) }
    ensures alone { IsLeftAlone (report_words (map string_bytes words.now)) (D.view disk.old) (D.view disk.new) }
    ensures counts { CountsDisk (D.view disk.old) (D.view disk.new) }
    ensures out_counts { CountsSinkFaults (O.view out.old) (O.view out.new) }
{
    match read_report(alloc, words)? {
        Ok(job) => report(alloc, &job, disk, out),
        Err(fault) => Err(Cause::usage(fault)),
    }
}
