// Makes the report of a whole log.
ghost use Rattle.std.specs.Prelude.{◌≡◌, ◌≤◌, ◌↔◌, [], length, Some, Err, IfOk};
ghost use Rattle.log_report.specs.Reports.{report_of};

use crate::sums::Sums;
use crate::{Report, ReportError};
use shell_log::Log;
use std::alloc::Global;

/// Returns the report of a log of at most 134,217,728 entries. Returns `Empty` exactly if the log has no entry, and
/// `OutOfMemory` if an allocation fails.
pub fn report(alloc: Global, log: &Log) -> Result<Report, ReportError>
    requires { length log.now.entries ≤ 134217728 }
    ensures ok { IfOk result (λ r. report_of log.now.entries ≡ Some r) }
    ensures empty { (result ≡ Err ReportError.Empty) ↔ (log.now.entries ≡ []) }
{
    let entries = log.entries();
    if entries.is_empty() {
        return Err(ReportError::Empty);
    }
    let mut sums = Sums::new(alloc)?;
    for entry in entries {
        sums.add(*entry)?;
    }
    sums.report().ok_or(ReportError::Empty)
}
