// The result of a run before its logs are written out.
ghost use Rattle.std.specs.Prelude.{◌≡◌, IfOk};
ghost use Rattle.nest_spec.specs.RunViews.{all_named};
ghost use Rattle.nest_plain.specs.Unwritten.{unwritten};

use crate::UnwrittenLog;
use nest_spec::{Named, NamedLog, PackedFate, RunResult, unpack_fates};
use std::marker::Model;
use text_base::OutOfMemory;

/// The fate of each row, in the order of the rows, and the logs that have a name, in the order of the shells, up before
/// down. No log is written out. Contracts see the fates, and the names and entries of the logs.
#[derive(Drop)]
pub struct NestRun {
    fates: Vec<PackedFate>,
    logs: Vec<UnwrittenLog>,
}

impl Model for NestRun {
    ghost use Rattle.nest_spec.specs.Nests.{RunLists};

    ghost Value = { RunLists };

    ghost use Rattle.nest_plain.specs.views.NestRun.{run_view};

    ghost view = { run_view };
}

impl NestRun {
    /// The run of `fates` and `logs`.
    pub fn new(fates: Vec<PackedFate>, logs: Vec<UnwrittenLog>) -> Self
        ensures { result ≡ record { fates = fates.items; logs = unwritten logs.items } }
    {
        NestRun { fates, logs }
    }

    /// Returns the fates, one for each row, and the named logs.
    pub fn into_parts(self) -> (Vec<PackedFate>, Vec<UnwrittenLog>)
        ensures fates { result.0.items ≡ self.fates }
        ensures logs { unwritten result.1.items ≡ self.logs }
    {
        (self.fates, self.logs)
    }

    /// Returns the same result with the fates as rows and the logs written out. Each log gives up its arrivals once it
    /// is written. Returns `OutOfMemory` where an allocation fails.
    pub fn into_result(self) -> Result<RunResult, OutOfMemory>
        ensures { IfOk result (λ r. r ≡ self) }
    {
        let (fates, logs) = self.into_parts();
        let rows = unpack_fates(*fates.allocator(), fates.as_slice())?;
        Ok(RunResult::new(rows, write_out(logs)?))
    }
}

// Writes each log out.
fn write_out(logs: Vec<UnwrittenLog>) -> Result<Vec<NamedLog>, OutOfMemory>
    ensures { IfOk result (λ list. all_named list.items ≡ unwritten logs.items) }
{
    let mut list = Vec::with_capacity(*logs.allocator(), logs.len())?;
    for Named { name, log } in logs {
        let log = log.into_link_log()?.into_log()?;
        list.push(Named { name, log })?;
    }
    Ok(list)
}
