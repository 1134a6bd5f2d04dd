// Makes the report of a log while the log's text is read piece by piece.
ghost use Rattle.std.specs.Prelude.{◌≡◌, ◌≢◌, ℕ, List, [], None, Some, IfOk, MatchResult};
ghost use Rattle.shell_log.specs.declared.entry.Entry.{Entry as EntryValue};
ghost use Rattle.shell_log.specs.Entries.{IsLog};
ghost use Rattle.shell_log.specs.LogText.{log_text};
ghost use Rattle.shell_log.specs.Reading.{log_fault};
ghost use Rattle.log_report.specs.Reports.{report_of};

use crate::Report;
use crate::sums::Sums;
use shell_log::{LogError, LogParser};
use std::alloc::Global;
use text_base::{OutOfMemory, PieceReader};

/// The report of a log whose text is read piece by piece, wherever the text is cut. Each entry is added to the sums as
/// it is read. Of the entries only what the ranks of their delays need is kept: 256 KiB of counts, and 8 bytes for each
/// delay of 65,536 milliseconds and more.
#[derive(Drop)]
pub struct ReportBuilder {
    parser: LogParser,
    sums: Sums,
}

impl ReportBuilder {
    ghost use Rattle.log_report.specs.ReportBuilder.{HasRead};

    /// Makes a report of which nothing is read so far. Returns `OutOfMemory` if an allocation fails.
    pub fn new(alloc: Global) -> Result<Self, OutOfMemory>
        ensures { IfOk result (HasRead []) }
    {
        Ok(ReportBuilder {
            parser: LogParser::new(alloc),
            sums: Sums::new(alloc)?,
        })
    }

    /// Returns the report of the log whose text was read, or `None` if the log has no entry.
    ///
    /// Returns the first refusal of the text, the same as `read_log` does. Returns `OutOfMemory` if an allocation
    /// fails, and also for a log of more than 134,217,728 entries, whose text has at least 768 MiB.
    pub fn finish(self) -> Result<Option<Report>, LogError>
        ensures found { (text : List ℕ) → HasRead text self → IfOk result (λ r. (es : List EntryValue)
            × IsLog es × (text ≡ log_text es) × (r ≡ report_of es)) }
        ensures every { (es : List EntryValue) → IsLog es → HasRead (log_text es) self → MatchResult result
            (λ r. r ≡ report_of es) (λ e. e ≡ LogError.OutOfMemory) }
        ensures exact { (text : List ℕ) → HasRead text self → MatchResult result (λ _. log_fault text ≡ None)
            (λ e. e ≢ LogError.OutOfMemory → log_fault text ≡ Some e) }
    {
        let ReportBuilder { parser, sums } = self;
        parser.finish()?;
        Ok(sums.report())
    }
}

impl PieceReader for ReportBuilder {
    ghost use Rattle.log_report.specs.ReportBuilder.{HasRead};

    ghost has_read = { HasRead };

    /// Reads the next piece of the text. After a refusal pieces are passed over.
    fn push(&mut self, piece: &[u8]) {
        let mut rest = piece;
        'entries: while let Some((entry, after)) = self.parser.next(rest) {
            if self.sums.add(entry).is_err() {
                self.parser.want_memory();
            }
            rest = after;
        }
    }
}
