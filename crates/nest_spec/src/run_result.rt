// The result of a run: the fate of each packet, and the logs of links.
ghost use Rattle.std.specs.Prelude.{◌≡◌};
ghost use Rattle.nest_spec.specs.RunViews.{all_named};

use crate::FateRow;
use shell_log::Log;
use std::marker::Model;
use text_base::Text;

/// The log of one direction of a link, in any form, and the name of its file.
#[derive(Drop)]
pub struct Named<T> {
    /// The name of the log's file.
    pub name: Text,
    /// The log.
    pub log: T,
}

/// A log that is written out, and the name of its file.
pub type NamedLog = Named<Log>;

/// The fate of each row, in the order of the rows, and the logs that have a name, in the order of the shells, up before
/// down. Contracts see both lists.
#[derive(Drop)]
pub struct RunResult {
    fates: Vec<FateRow>,
    logs: Vec<NamedLog>,
}

impl Model for RunResult {
    ghost use Rattle.nest_spec.specs.Nests.{RunLists};

    ghost Value = { RunLists };

    ghost use Rattle.nest_spec.specs.views.RunResult.{result_view};

    ghost view = { result_view };
}

impl RunResult {
    /// The result of `fates` and `logs`.
    pub fn new(fates: Vec<FateRow>, logs: Vec<NamedLog>) -> Self
        ensures { result ≡ record { fates = fates.items; logs = all_named logs.items } }
    {
        RunResult { fates, logs }
    }

    /// Returns the fates, one for each row.
    pub fn fates(&self) -> &[FateRow]
        ensures { result.now ≡ self.now.fates }
    {
        self.fates.as_slice()
    }

    /// Returns the named logs.
    pub fn logs(&self) -> &[NamedLog]
        ensures { all_named result.now ≡ self.now.logs }
    {
        self.logs.as_slice()
    }
}
