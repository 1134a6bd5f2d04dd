// Gives bytes to a connection, at once or gathered.
ghost use Rattle.std.specs.Prelude.{◌≡◌, [], ◌++◌, OnOk, OnErr, IsErrOf};
ghost use Rattle.std.specs.Option.{option_map};
ghost use Rattle.mm_base.specs.Counts.{Rose};
ghost use Rattle.mm_base.specs.Link.{CountsLinkFaults, giving};
ghost use Rattle.replay_server.specs.Giving.{Breaks};
ghost use Rattle.replay_server.specs.inside.Giving.{Pours, Spills};

use mm_base::{EndError, Link};
use text_base::Bytes;

// How many bytes are gathered at most before they are given.
const MOST_GATHERED: usize = 65_536;

/// Gives all bytes of `piece` to a connection. After an error it was given a prefix of them, and not all.
///
/// `Failed` comes if the connection refuses a write, which is counted as a fault. `OutOfMemory` means out of memory.
pub fn give<L: Link>(link: &mut L, piece: &[u8]) -> Result<(), EndError>
    ensures ok { OnOk result ((L.view link.new).told ≡ option_map (giving piece.now) (L.view link.old).told) }
    ensures err { OnErr result (Breaks (L.view link.old).told (L.view link.new).told piece.now) }
    ensures counts { CountsLinkFaults (L.view link.old) (L.view link.new) }
    ensures failed_cause { IsErrOf result EndError.Failed → Rose (L.view link.old).faults (L.view link.new).faults }
{
    let mut at = 0;
    while at < piece.len() {
        at += link.write(&piece[at..])?;
    }
    Ok(())
}

/// Gives what was gathered.
pub fn flush<L: Link>(link: &mut L, gathered: &mut Bytes) -> Result<(), EndError>
    ensures ok { OnOk result (gathered.new ≡ []) }
    ensures pours { OnOk result (Pours (L.view link.old).told (L.view link.new).told gathered.old gathered.new []) }
    ensures err { OnErr result (Spills (L.view link.old).told (L.view link.new).told gathered.old) }
    ensures counts { CountsLinkFaults (L.view link.old) (L.view link.new) }
    ensures failed_cause { IsErrOf result EndError.Failed → Rose (L.view link.old).faults (L.view link.new).faults }
{
    give(link, gathered.as_slice())?;
    gathered.clear();
    Ok(())
}

/// Gathers a piece. Where there would be too much, what was gathered is given before, and a large piece at once.
pub fn gather<L: Link>(link: &mut L, gathered: &mut Bytes, piece: &[u8]) -> Result<(), EndError>
    ensures ok { OnOk result
        (Pours (L.view link.old).told (L.view link.new).told gathered.old gathered.new piece.now) }
    ensures err { OnErr result (Spills (L.view link.old).told (L.view link.new).told (gathered.old ++ piece.now)) }
    ensures counts { CountsLinkFaults (L.view link.old) (L.view link.new) }
    ensures failed_cause { IsErrOf result EndError.Failed → Rose (L.view link.old).faults (L.view link.new).faults }
{
    if piece.len() <= MOST_GATHERED - gathered.len().min(MOST_GATHERED) {
        gathered.append(piece)?;
        return Ok(());
    }
    flush(link, gathered)?;
    if piece.len() > MOST_GATHERED {
        return give(link, piece);
    }
    gathered.append(piece)?;
    Ok(())
}
