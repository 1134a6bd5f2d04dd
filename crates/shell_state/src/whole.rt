// What a direction leaves of a whole list of packets, and a link run over one.
ghost use Rattle.std.specs.Prelude.{◌≡◌, ◌≤◌, Some, None, [], length, map, IfOk, if◌then◌else◌};
ghost use Rattle.packet_record.specs.Moments.{AreUpTo, Rise};
ghost use Rattle.trace_reader.specs.Opps.{opps};
ghost use Rattle.trace_reader.specs.Traces.{IsTrace};
ghost use Rattle.shell_state.specs.Shells.{inside, whole_out, whole_lost, whole_log};

use crate::spec::DirSpec;
use link_core::{Passage, run_link};
use packet_queue::QueueSpec;
use packet_record::Timed;
use std::alloc::Global;
use text_base::OutOfMemory;
use text_base::limits::{HOUR, MOST_OPPORTUNITIES};
use trace_reader::Trace;

/// The lists of a direction in which no packet stays inside.
pub(crate) fn passage(alloc: Global, departed: Vec<Timed>, lost: Vec<Timed>) -> Passage
    ensures departed { result.departed.items ≡ departed.items }
    ensures lost { result.lost.items ≡ lost.items }
    ensures held { result.held.items ≡ [] }
    ensures log { result.log ≡ None }
{
    Passage {
        departed,
        lost,
        held: Vec::new(alloc),
        log: None,
    }
}

/// The lists of a direction in which no packet is lost.
pub(crate) fn late_passage(alloc: Global, departed: Vec<Timed>, held: Vec<u32>) -> Passage
    ensures departed { result.departed.items ≡ departed.items }
    ensures lost { result.lost.items ≡ [] }
    ensures held { result.held.items ≡ held.items }
    ensures log { result.log ≡ None }
{
    Passage {
        departed,
        lost: Vec::new(alloc),
        held,
        log: None,
    }
}

/// Runs a link over all packets. Where `logged`, it keeps its arrivals and its trace for the log.
#[tactic(auto, using(crate::proofs::WholeLemmas::all_taken), unfolding(crate::specs::Shells::opportunities, crate::specs::Shells::out, crate::specs::Shells::lost, crate::specs::Shells::inside, crate::specs::Shells::shell_log))]
pub(crate) fn link(
    alloc: Global,
    trace: Trace,
    once: bool,
    queue: QueueSpec,
    horizon: u64,
    logged: bool,
    packets: Vec<Timed>,
) -> Result<Passage, OutOfMemory>
    requires horizon { horizon ≤ HOUR }
    requires few { length (opps trace.opportunities once horizon) ≤ MOST_OPPORTUNITIES }
    requires rises { Rise packets.items }
    requires within { AreUpTo horizon packets.items }
    ensures departed { IfOk result (λ p. p.departed.items ≡ whole_out (DirSpec.Link trace once queue) horizon
        packets.items) }
    ensures lost { IfOk result (λ p. p.lost.items ≡ whole_lost (DirSpec.Link trace once queue) horizon packets.items) }
    ensures held { IfOk result (λ p. p.held.items ≡ map (λ t. t.packet.id)
        (inside (DirSpec.Link trace once queue) horizon (length (opps trace.opportunities once horizon))
        packets.items)) }
    ensures log { IfOk result (λ p. p.log ≡ (if logged then Some
        (whole_log (DirSpec.Link trace once queue) horizon packets.items) else None)) }
    ensures built { IsTrace trace }
{
    let _ = trace.form(); // fact: what IsTrace says of a trace
    run_link(alloc, trace, once, queue, horizon, logged, packets)
}
