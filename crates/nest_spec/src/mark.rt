// How a packet's fate is marked: dropped by a shell, or departed from the last.
ghost use Rattle.std.specs.Prelude.{◌≡◌, ◌≤◌};
ghost use Rattle.nest_spec.specs.Marks.{mark_fate};
ghost use Rattle.nest_spec.specs.inside.PackedFates.{CanBePacked, HasNestShell};

use crate::Fate;
use packet_record::Timed;
use text_base::limits::HOUR;

// What happened to a packet that is marked.
#[derive(Clone, Copy)]
pub(crate) enum Mark {
    // `shell` dropped it.
    Drops { shell: u32 },
    // It departed from the last shell.
    Leaves,
}

// Returns the fate of a packet that is marked, at the packet's moment.
pub(crate) fn fate_by(mark: Mark, t: Timed) -> Fate
    ensures fate { result ≡ mark_fate mark t }
    ensures short { HasNestShell mark → t.moment ≤ HOUR → CanBePacked result }
{
    match mark {
        Mark::Drops { shell } => Fate::Dropped {
            shell,
            moment: t.moment,
        },
        Mark::Leaves => Fate::Departed { moment: t.moment },
    }
}
