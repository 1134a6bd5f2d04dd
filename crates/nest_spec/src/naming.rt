// Puts what shells have in each direction, as their logs, into the nest's order.
ghost use Rattle.std.specs.Prelude.{◌≡◌, ◌++◌, length, option_to_list, OnOk, IfOk};
ghost use Rattle.nest_spec.specs.Walk.{in_nest_order};

use std::alloc::Global;
use text_base::OutOfMemory;

/// Returns what shells have in each direction, in the nest's order, up before down. Each list has an entry for each
/// shell, in passing order. Returns `OutOfMemory` where an allocation fails.
pub fn in_nest_order<T: Drop>(
    alloc: Global,
    mut ups: Vec<Option<T>>,
    downs: Vec<Option<T>>,
) -> Result<Vec<T>, OutOfMemory>
    requires { length ups.items ≡ length downs.items }
    ensures { IfOk result (λ list. list.items ≡ in_nest_order ups.items downs.items) }
{
    let mut list = Vec::new(alloc);
    // Packets pass the outermost shell first on their way down, and last on their way up.
    for down in downs {
        let up = ups.pop().unwrap();
        push_some(&mut list, up)?;
        push_some(&mut list, down)?;
    }
    Ok(list)
}

// Adds the entry, if there is one.
fn push_some<T: Drop>(list: &mut Vec<T>, entry: Option<T>) -> Result<(), OutOfMemory>
    ensures { OnOk result (list.new.items ≡ list.old.items ++ option_to_list entry) }
{
    if let Some(entry) = entry {
        list.push(entry)?;
    }
    Ok(())
}
