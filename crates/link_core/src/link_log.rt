// The log of a link that isn't written out yet: what it is made of.
ghost use Rattle.std.specs.Prelude.{◌≡◌, ◌≤◌, [], length, take, IfOk};
ghost use Rattle.packet_record.specs.Moments.{AreUpTo, Rise};
ghost use Rattle.trace_reader.specs.Opps.{opps};
ghost use Rattle.link_core.specs.Links.{link_log};
ghost use Rattle.link_core.specs.Promises.{AreCovered};
ghost use Rattle.link_core.specs.views.Span.{span_opps};

use crate::opportunities::Opportunities;
use crate::parts::Parts;
use crate::pieces::LogPieces;
use crate::whole::played;
use packet_queue::QueueSpec;
use packet_record::Timed;
use shell_log::Log;
use std::alloc::Global;
use std::marker::Model;
use text_base::OutOfMemory;
use text_base::limits::{HOUR, MOST_OPPORTUNITIES};
use trace_reader::Trace;

/// The log of a link: of the packets that arrived, and of the opportunities that were burnt. It isn't written out: it
/// is made again from the arrivals, piece by piece. Contracts see its entries.
#[derive(Drop)]
pub struct LinkLog {
    alloc: Global,
    opportunities: Opportunities,
    queue: QueueSpec,
    burnt: u32,
    arrivals: Vec<Timed>,
}

impl Model for LinkLog {
    ghost use Rattle.std.specs.Prelude.{◌≤◌, List, length, take};
    ghost use Rattle.packet_record.specs.Moments.{AreUpTo, Rise};
    ghost use Rattle.shell_log.specs.declared.entry.Entry.{Entry};
    ghost use Rattle.link_core.specs.Links.{link_log};
    ghost use Rattle.link_core.specs.Promises.{AreCovered};
    ghost use Rattle.link_core.specs.views.Span.{span_opps};

    ghost Value = { List Entry };

    ghost view = { λ l. link_log l.queue (take l.burnt (span_opps l.opportunities)) l.arrivals.items };

    ghost invariant = { λ l. Rise l.arrivals.items × AreUpTo l.opportunities.horizon l.arrivals.items
        × AreCovered (span_opps l.opportunities) l.burnt l.arrivals.items
        × (l.burnt ≤ length (span_opps l.opportunities)) };
}

impl LinkLog {
    // The log of a link, of whose opportunities the first `burnt` are burnt.
    pub(crate) fn of(
        alloc: Global,
        opportunities: Opportunities,
        queue: QueueSpec,
        burnt: u32,
        arrivals: Vec<Timed>,
    ) -> LinkLog
        requires rises { Rise arrivals.items }
        requires within { AreUpTo opportunities.horizon arrivals.items }
        requires covered { AreCovered (span_opps opportunities) burnt arrivals.items }
        requires few { burnt ≤ length (span_opps opportunities) }
        ensures { result ≡ link_log queue (take burnt (span_opps opportunities)) arrivals.items }
    {
        LinkLog {
            alloc,
            opportunities,
            queue,
            burnt,
            arrivals,
        }
    }

    /// The log of a link over all its arrivals, which are in order and up to the horizon, and every opportunity up to
    /// the horizon. Nothing is run for it before it is asked for.
    pub fn whole(
        alloc: Global,
        trace: Trace,
        once: bool,
        queue: QueueSpec,
        horizon: u64,
        arrivals: Vec<Timed>,
    ) -> LinkLog
        requires horizon { horizon ≤ HOUR }
        requires few { length (opps trace.opportunities once horizon) ≤ MOST_OPPORTUNITIES }
        requires rises { Rise arrivals.items }
        requires within { AreUpTo horizon arrivals.items }
        ensures { result ≡ link_log queue (opps trace.opportunities once horizon) arrivals.items }
    {
        let opportunities = Opportunities::new(trace, once, horizon);
        let burnt = opportunities.len();
        LinkLog::of(alloc, opportunities, queue, burnt, arrivals)
    }

    /// The log in pieces, none of them in hand yet.
    pub fn pieces(self) -> LogPieces
        ensures piece { result.piece ≡ [] }
        ensures rest { result.rest ≡ self }
    {
        let parts = Parts::new(
            self.alloc,
            self.opportunities,
            self.queue,
            true,
            self.arrivals,
        );
        LogPieces::new(parts, self.burnt)
    }

    /// The log, written out, or out of memory.
    pub fn into_log(self) -> Result<Log, OutOfMemory>
        ensures { IfOk result (λ log. log.entries ≡ self) }
    {
        let parts = played(
            self.alloc,
            self.opportunities,
            self.queue,
            self.burnt,
            true,
            self.arrivals,
        )?;
        Ok(parts.log.into_log())
    }
}
