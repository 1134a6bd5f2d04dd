// The log of the first shell of a direction, whose arrivals are found again in the schedule.
ghost use Rattle.std.specs.Prelude.{◌≡◌, ◌≤◌, true, length, IfOk};
ghost use Rattle.shell_state.specs.Shells.{meaning, opportunities};
ghost use Rattle.shell_state.specs.Wholes.{IsLink};
ghost use Rattle.nest_plain.specs.views.Arrivals.{entries_by};

use crate::arrivals::ArrivalSource;
use link_core::LinkLog;
use shell_state::{DirSpec, whole_link_log};
use std::alloc::Global;
use text_base::OutOfMemory;

// The log of a link at which packets arrive as they enter the nest. It keeps no arrivals.
#[derive(Drop)]
pub(crate) struct FirstLog {
    pub(crate) alloc: Global,
    pub(crate) spec: DirSpec,
    pub(crate) arrivals: ArrivalSource,
    pub(crate) ghost link: { (meaning spec).is_logged ≡ true },
    pub(crate) ghost short: { arrivals.horizon ≤ 3600000 },
    pub(crate) ghost few: { length (opportunities spec arrivals.horizon) ≤ 16000000 },
}

impl FirstLog {
    // The log of a link at which `arrivals` arrive, or out of memory. No packet is copied.
    pub(crate) fn new(
        alloc: Global,
        spec: &DirSpec,
        arrivals: &ArrivalSource,
    ) -> Result<FirstLog, OutOfMemory>
        requires link { IsLink spec.now }
        requires short { arrivals.now.horizon ≤ 3600000 }
        requires few { length (opportunities spec.now arrivals.now.horizon) ≤ 16000000 }
        ensures { IfOk result (λ log. entries_by log.spec log.arrivals ≡ entries_by spec.now arrivals.now) }
    {
        Ok(FirstLog {
            alloc,
            spec: spec.copy()?,
            arrivals: arrivals.copy()?,
        })
    }

    // Returns the log with its arrivals, or runs out of memory.
    pub(crate) fn into_link_log(self) -> Result<LinkLog, OutOfMemory>
        ensures { IfOk result (λ log. log ≡ entries_by self.spec self.arrivals) }
    {
        let horizon = self.arrivals.horizon;
        let arrived = self.arrivals.packets(Vec::new(self.alloc))?;
        let log = whole_link_log(self.alloc, self.spec, horizon, arrived);
        Ok(log.unwrap())
    }
}
