// A nest of shells, built from its words and traces, and what its shells do in each direction.
ghost use Rattle.std.specs.Prelude.{◌≡◌, ◌≤◌, ◌+◌, ◌++◌, length, OnOk, IfOk};
ghost use Rattle.nest_spec.specs.Nests.{IsNest, AllFit, built, opportunities_of};
ghost use Rattle.nest_spec.specs.Nests.{all_in_direction, directions_of, in_passing_order, shells_in, until};
ghost use Rattle.nest_spec.specs.Links.{AreNestShells, specs_in};

use crate::build_shells::build_shells;
use crate::{LinkDirection, NestWords, Shell, ShellDirection};
use packet_record::Direction;
use shell_state::DirSpec;
use std::alloc::Global;
use std::marker::Model;
use text_base::OutOfMemory;
use text_base::limits::{HOUR, MOST_OPPORTUNITIES};
use trace_reader::Trace;

/// 1 to 8 shells, the outermost first, with the seed of their losses and the horizon in milliseconds.
#[derive(Drop)]
pub struct Nest {
    shells: Vec<Shell<LinkDirection>>,
    seed: u64,
    horizon: u64,
}

impl Model for Nest {
    ghost use Rattle.nest_spec.specs.Nests.{NestParts};

    ghost Value = { NestParts };

    ghost use Rattle.nest_spec.specs.views.Nest.{nest_view};
    ghost use Rattle.nest_spec.specs.inside.NestViews.{HasNest};

    ghost view = { nest_view };

    ghost invariant = { HasNest };
}

/// Returns the nest of `words`, whose links take `traces` in their order, one for each name in the words.
///
/// `horizon` is at most 3,600,000 ms, and the links have at most 16,000,000 opportunities up to it
/// (`NestWords::opportunities`). Returns `OutOfMemory` where an allocation fails.
pub fn build(
    alloc: Global,
    words: NestWords,
    traces: Vec<Trace>,
    seed: u64,
    horizon: u64,
) -> Result<Nest, OutOfMemory>
    requires traces { length traces.items ≡ length words.traces }
    requires horizon { horizon ≤ HOUR }
    requires few { opportunities_of horizon words.shells traces.items ≤ MOST_OPPORTUNITIES }
    ensures { IfOk result (λ nest. nest ≡ built words traces.items seed horizon) }
{
    let shells = build_shells(alloc, words, traces)?;
    Ok(Nest {
        shells,
        seed,
        horizon,
    })
}

impl Nest {
    /// Returns how many shells the nest has, 1 to 8.
    pub fn shells(&self) -> u32
        ensures count { result ≡ length self.now.shells }
        ensures nest { IsNest self.now }
    {
        self.shells.len() as u32
    }

    /// Returns the horizon in milliseconds, at most 3,600,000. What is at a moment up to it happens, and nothing after
    /// it.
    pub fn horizon(&self) -> u64
        ensures value { result ≡ self.now.horizon }
        ensures most { result ≤ HOUR }
    {
        self.horizon
    }

    /// Returns the nest with another horizon, which isn't later. It takes no memory.
    pub fn until(self, horizon: u64) -> Nest
        requires { horizon ≤ self.horizon }
        ensures { result ≡ until horizon self }
    {
        Nest { horizon, ..self }
    }

    /// Returns the shells in a direction, in passing order: up the innermost first, down the outermost first. Returns
    /// `OutOfMemory` where an allocation fails.
    pub fn shells_in(&self, direction: Direction) -> Result<Vec<ShellDirection>, OutOfMemory>
        ensures list { IfOk result (λ list. list.items ≡ shells_in direction self.now) }
        ensures some { IfOk result (λ list. 1 ≤ length list.items) }
        ensures fit { IfOk result (λ list. AllFit self.now.horizon (specs_in list.items)) }
        ensures shells { IfOk result (λ list. AreNestShells list.items) }
        ensures horizon { self.now.horizon ≤ HOUR }
    {
        let mut list = Vec::new(*self.shells.allocator());
        push_directions(&mut list, direction, self.seed, 1, self.shells.as_slice())?;
        Ok(in_passing_order(direction, list))
    }

    /// Returns what the shells do in a direction, in passing order. Returns `OutOfMemory` where an allocation fails.
    pub fn directions(&self, direction: Direction) -> Result<Vec<DirSpec>, OutOfMemory>
        ensures list { IfOk result (λ list. list.items ≡ directions_of direction self.now) }
        ensures fit { IfOk result (λ list. AllFit self.now.horizon list.items) }
        ensures horizon { self.now.horizon ≤ HOUR }
    {
        let alloc = *self.shells.allocator();
        let shells = self.shells_in(direction)?;
        let list = shells.into_iter().map(|shell| shell.spec).collect(alloc)?;
        Ok(list)
    }
}

// Returns shells that stand the outermost first in the order in which packets pass them.
fn in_passing_order<T>(direction: Direction, mut list: Vec<T>) -> Vec<T>
    ensures { result.items ≡ in_passing_order direction list.items }
{
    if direction == Direction::Up {
        list.reverse();
    }
    list
}

// Adds `shells` in a direction, the first with the number `number`.
fn push_directions(
    list: &mut Vec<ShellDirection>,
    direction: Direction,
    seed: u64,
    number: u32,
    shells: &[Shell<LinkDirection>],
) -> Result<(), OutOfMemory>
    requires { number + length shells.now ≤ 9 }
    ensures { OnOk result (list.new.items ≡ list.old.items ++ all_in_direction direction seed number shells.now) }
{
    let Some((shell, shells)) = shells.split_first() else {
        return Ok(());
    };
    let alloc = *list.allocator();
    list.push(shell.in_direction(alloc, direction, seed, number)?)?;
    push_directions(list, direction, seed, number + 1, shells)
}
