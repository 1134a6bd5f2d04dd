// What `mm-relay` does with its clock and its wire.
ghost use Rattle.std.specs.Prelude.{◌≡◌, IfErr, IfOk};
ghost use Rattle.live_relay.specs.Wires.{CountsWireFaults};
ghost use Rattle.command_relay.specs.Relaying.{HasRelayed, HasStopped, net};
ghost use Rattle.command_relay.specs.inside.Relaying.{cause_of_relay, cause_of_wire};
ghost use Rattle.command_relay.specs.inside.Values.{relay_values};

use crate::job::RelayJob;
use command_ends::Cause;
use live_relay::{Clock, RelayError, RelayResult, Wire, relay};
use mm_base::EndError;
use nest_spec::Nest;
use std::alloc::Global;

// Why a wire can't be opened.
fn cause_of_wire(error: EndError) -> Cause
    ensures { result ≡ cause_of_wire error }
{
    match error {
        EndError::Failed => Cause::NetFault,
        EndError::OutOfMemory => Cause::OutOfMemory,
    }
}

// Why a relay stopped.
fn cause_of_relay(error: RelayError) -> Cause
    ensures { result ≡ cause_of_relay error }
{
    match error {
        RelayError::WireFault => Cause::NetFault,
        RelayError::OutOfMemory => Cause::OutOfMemory,
    }
}

/// Opens the wire at the job's ports, and lets its datagrams pass the nest.
pub(crate) fn relay_job<C: Clock, W: Wire>(
    alloc: Global,
    job: &RelayJob<'_>,
    nest: Nest,
    clock: &mut C,
    wire: &mut W,
) -> Result<RelayResult, Cause>
    ensures relayed { IfOk result (λ r. HasRelayed (relay_values job.now) nest
        (net (C.view clock.old) (W.view wire.old)) (net (C.view clock.new) (W.view wire.new)) r) }
    ensures stopped { IfErr result (λ cause. HasStopped (relay_values job.now) nest
        (net (C.view clock.old) (W.view wire.old)) (net (C.view clock.new) (W.view wire.new)) cause) }
    ensures counts { CountsWireFaults (W.view wire.old) (W.view wire.new) }
{
    if let Err(error) = wire.open(job.listen, job.to) {
        return Err(cause_of_wire(error));
    }
    match relay(alloc, nest, job.turns, clock, wire) {
        Ok(relayed) => Ok(relayed),
        Err(error) => Err(cause_of_relay(error)),
    }
}
