// The log of a series, and how the series is printed.
ghost use Rattle.std.specs.Prelude.{◌≡◌, ◌≤◌, ◌++◌, ℕ, List, None, IfOk, IfErr, OnOk, MatchResult};
ghost use Rattle.mm_base.specs.Disk.{OnlyReads};
ghost use Rattle.mm_base.specs.Sink.{CountsSinkFaults, sending};
ghost use Rattle.shell_log.specs.Entries.{IsLog};
ghost use Rattle.shell_log.specs.LogText.{log_text};
ghost use Rattle.log_report.specs.SeriesText.{series_text};
ghost use Rattle.command_ends.specs.inside.Ends.{FinishesOnly};
ghost use Rattle.command_ends.specs.Outputs.{prints};
ghost use Rattle.command_ends.specs.Stops.{RefusesText, StopsPrinting, StopsReading};
ghost use Rattle.command_report.specs.Report.{GivesReport};
ghost use Rattle.command_report.specs.ReportReading.{log_refusal, report_reading};
ghost use Rattle.command_report.specs.inside.Values.{report_values};

use crate::report::log_cause;
use crate::report_form::{ReportForm, ReportJob};
use command_ends::{Cause, print, read_input};
use log_report::{SERIES_HEADER, Series, print_bin};
use mm_base::{Disk, Sink};
use shell_log::{Log, read_log};
use std::alloc::Global;
use text_base::{Bytes, Text};

// How many bytes are collected before they are printed.
const PIECE_BYTES: usize = 32_768;

// Returns the log of a text, which is in the file `name`.
fn log_of(alloc: Global, name: &str, text: &[u8]) -> Result<Log, Cause>
    ensures log { IfOk result (λ log. IsLog log.entries × (text.now ≡ log_text log.entries)) }
    ensures refused { MatchResult result (λ _. log_refusal name.now text.now ≡ None)
        (λ cause. RefusesText (log_refusal name.now text.now) cause) }
{
    match read_log(alloc, text) {
        Ok(log) => {
            log.entries(); // fact: the entries are in order
            Ok(log)
        }
        Err(error) => Err(log_cause(Text::from_text(alloc, name)?, error)),
    }
}

// Reads the log of a job.
pub(crate) fn load_log<D: Disk>(
    alloc: Global,
    disk: &mut D,
    job: &ReportJob<'_>,
) -> Result<Log, Cause>
    ensures found { (every : ℕ) → job.now.form ≡ ReportForm.Series every
        → IfOk result (λ log. FinishesOnly GivesReport (report_reading (report_values job.now))
        (D.view disk.old).files (prints (series_text every log.entries))) }
    ensures stopped { IfErr result (λ cause. StopsReading (report_reading (report_values job.now)) (D.view disk.old)
        (D.view disk.new) cause) }
    ensures only_reads { OnlyReads (D.view disk.old) (D.view disk.new) }
{
    let text = read_input(alloc, disk, job.log)?;
    log_of(alloc, job.log, text.as_slice())
}

// Prints a text and empties it, once it is long.
fn print_if_long<O: Sink>(out: &mut O, text: &mut Bytes) -> Result<(), Cause>
    ensures ok { OnOk result ((sent : List ℕ) × (text.old ≡ sent ++ text.new)
        × ((O.view out.new).written ≡ sending sent (O.view out.old).written)) }
    ensures stopped { IfErr result (λ cause. StopsPrinting text.old (O.view out.old) (O.view out.new) cause) }
    ensures counts { CountsSinkFaults (O.view out.old) (O.view out.new) }
{
    if text.len() < PIECE_BYTES {
        return Ok(());
    }
    print(out, text.as_slice())?;
    text.clear();
    Ok(())
}

// Prints the series of a log in bins of `every` milliseconds, and never holds more of its text than a piece.
pub(crate) fn print_series<O: Sink>(
    alloc: Global,
    out: &mut O,
    log: &Log,
    every: u64,
) -> Result<(), Cause>
    requires some { 1 ≤ every }
    requires most { every ≤ 3600000 }
    ensures ok { OnOk result ((O.view out.new).written ≡ sending (series_text every log.now.entries)
        (O.view out.old).written) }
    ensures stopped { IfErr result (λ cause. StopsPrinting (series_text every log.now.entries) (O.view out.old)
        (O.view out.new) cause) }
    ensures counts { CountsSinkFaults (O.view out.old) (O.view out.new) }
{
    let mut series = Series::new(log, every)?;
    let mut text = Bytes::from_slice(alloc, SERIES_HEADER)?;
    'bins: while let Some(bin) = series.next(alloc)? {
        print_bin(&mut text, &bin)?;
        print_if_long(out, &mut text)?;
    }
    print(out, text.as_slice())
}
