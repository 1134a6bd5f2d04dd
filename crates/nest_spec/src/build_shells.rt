// Builds the shells of a nest from its words: each link gets its traces and the names of its logs.
ghost use Rattle.std.specs.Prelude.{◌≡◌, ◌++◌, length, OnOk, IfOk};
ghost use Rattle.std.specs.Vec.Iter.{into_iter_items};
ghost use Rattle.nest_spec.specs.Shells.{shells_of};
ghost use Rattle.nest_spec.specs.Plans.{IsPlan, trace_count, log_count};

use crate::shell::shell_of;
use crate::{LinkDirection, LinkSide, NestWords, Shell};
use std::alloc::Global;
use std::vec::IntoIter;
use text_base::{OutOfMemory, Text};
use trace_reader::Trace;

// Returns the shells of `words`, whose links take `traces` in their order. There is a trace for each name in the words.
pub(crate) fn build_shells(
    alloc: Global,
    words: NestWords,
    traces: Vec<Trace>,
) -> Result<Vec<Shell<LinkDirection>>, OutOfMemory>
    requires { length traces.items ≡ length words.traces }
    ensures shells { IfOk result (λ shells. shells.items ≡ shells_of words.shells traces.items words.logs) }
    ensures plan { IsPlan words }
{
    let (words, names) = words.into_parts();
    let mut shells = Vec::with_capacity(alloc, words.len())?;
    push_shells(
        &mut shells,
        words.as_slice(),
        traces.into_iter(),
        names.into_iter(),
    )?;
    Ok(shells)
}

// Adds the shells of `words`, which take the next of `traces` and `names`.
fn push_shells(
    shells: &mut Vec<Shell<LinkDirection>>,
    words: &[Shell<LinkSide>],
    mut traces: IntoIter<Trace>,
    mut names: IntoIter<Text>,
) -> Result<(), OutOfMemory>
    requires traces { length (into_iter_items traces) ≡ trace_count words.now }
    requires names { length (into_iter_items names) ≡ log_count words.now }
    ensures { OnOk result (shells.new.items
        ≡ shells.old.items ++ shells_of words.now (into_iter_items traces) (into_iter_items names)) }
{
    let Some((shell, words)) = words.split_first() else {
        return Ok(());
    };
    let shell = shell_of(*shell, &mut traces, &mut names);
    shells.push(shell)?;
    push_shells(shells, words, traces, names)
}
