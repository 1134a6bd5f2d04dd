// The order of a run that goes by single steps, read from its file.
ghost use Rattle.std.specs.Prelude.{OnOk, IfErr, option_map};
ghost use Rattle.mm_base.specs.Disk.{OnlyReads};
ghost use Rattle.command_run.specs.inside.Loaded.{HasOrder, StopsAtOrder};

use command_ends::{Cause, read_input};
use mm_base::Disk;
use std::alloc::Global;
use text_base::Bytes;

// Returns the bytes of the order in the file `name`, or `None` if there is no name.
pub(crate) fn load_order<D: Disk>(
    alloc: Global,
    disk: &mut D,
    name: Option<&str>,
) -> Result<Option<Bytes>, Cause>
    ensures found { OnOk result (HasOrder (D.view disk.old).files (option_map (λ s. s.now) name.entry)) }
    ensures stopped { IfErr result (λ cause. StopsAtOrder (option_map (λ s. s.now) name.entry) (D.view disk.old)
        (D.view disk.new) cause) }
    ensures only_reads { OnlyReads (D.view disk.old) (D.view disk.new) }
{
    match name {
        Some(name) => Ok(Some(read_input(alloc, disk, name)?)),
        None => Ok(None),
    }
}
