// The rule of the table, and what its steps tell. These types are for proofs alone.
use crate::view::View;
use atomic_table::{Join, Play, Split, TableRule};
use shell_state::ShellState;
use std::marker::{Brand, PhantomData};
use std::snapshot::Snapshot;

/// The slot holds the shell's state. The seat that has the turn works on it where it is.
pub type Slot = ShellState;

/// The key is the state that the cell was opened with.
pub type Opening = Snapshot<ShellState>;

/// The rule: only the seat that has the turn works on the state.
pub struct Turns;

impl TableRule<Slot, View, Opening> for Turns {
    ghost use Rattle.std.specs.Prelude.{[], None, false};
    ghost use Rattle.shell_cell.specs.declared.view.SeatRole.TheVariants.{Whole};
    ghost use Rattle.shell_cell.specs.inside.Rule.{Kept, view};

    ghost holds = { λ key. Kept key.value };

    ghost first = { λ key. view Whole key.value [] [] false None };
}

/// A seat asks for the turn.
pub struct Claim;

impl Play<Slot, View> for Claim {
    ghost use Rattle.shell_cell.specs.inside.Rule.{claims};

    ghost then = { claims };
}

/// A seat gives the turn back without spending it.
pub struct GiveUp;

impl Play<Slot, View> for GiveUp {
    ghost use Rattle.shell_cell.specs.inside.Rule.{gives_up};

    ghost then = { gives_up };
}

/// Names the call that a turn is spent on. Each step that gives a turn back picks it.
pub trait Spending {
    ghost use Rattle.shell_cell.specs.declared.view.Call.{Call};

    ghost call: { Call };
}

impl Spending for Brand {
    ghost use Rattle.shell_cell.specs.declared.view.Call.TheVariants.{Drains};
    ghost use Rattle.shell_cell.specs.declared.view.DrainCall.TheVariants.{Breaks};

    ghost call = { Drains Breaks };
}

/// A seat gives the turn back, spent on a call.
pub struct Spend<J> {
    call: PhantomData<J>,
}

impl<J: Spending> Play<Slot, View> for Spend<J> {
    ghost use Rattle.shell_cell.specs.inside.Rule.{spends};

    ghost then = { spends J.call };
}

/// One seat becomes two, the feeder's and the drain's, and both become one again.
pub struct Part;

impl Split<View> for Part {
    ghost use Rattle.shell_cell.specs.inside.Rule.{left_of, right_of};

    ghost left = { left_of };

    ghost right = { right_of };
}

impl Join<View> for Part {
    ghost use Rattle.shell_cell.specs.inside.Rule.{both_of, spent_view};

    ghost both = { both_of };

    ghost spent = { spent_view };
}
