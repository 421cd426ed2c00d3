//! The least bound that holds what either of two bounds holds.

ghost use Rattle.std.specs.Prelude.{◌≡◌, ◌+◌, ◌<◌, IfOk, OnOk, Some, length, true};
ghost use Rattle.fc_nodes.specs.Terms.{is_branching, kept, node_keeps, sort_of, view_at, view_of};
ghost use Rattle.fc_nodes.specs.Program.{unfolding_of, IsProgram};
ghost use Rattle.value_trees.specs.SlotFits.{after_own};
ghost use Rattle.value_bounds.specs.References.{local_bounds_in};
ghost use Rattle.bound_firing.specs.BoundTrees.{slot_bound};
ghost use Rattle.bound_firing.specs.ExportReferences.{export_bound_in};
ghost use Rattle.export_bounds.specs.Exports.{either_export};
ghost use Rattle.export_bounds.specs.Widening.{AreThere, CanWidenAt, CanWidenKidsAt, KidsWidenedAt, OwnWidenedAt};
ghost use Rattle.export_bounds.specs.Widening.{SlotWidenedAt, WidenedAt, branch_by, side_in};

use bound_firing::{ExportBound, may_be};
use fc_nodes::{Node, Op, Unfolded, is_if};
use fc_values::Memory;
use std::alloc::Global;
use value_bounds::{LocalBound, copy_bound, either};

/// Whose slots count at a place: those of both bounds, or those of the only one in which it may be taken.
#[derive(Clone, Copy)]
pub enum Side {
    Both,
    First,
    Second,
}

/// A place of a program that is visited, and whose slots count there.
#[derive(Clone, Copy)]
pub struct Visit<'a> {
    pub program: &'a Unfolded,
    pub place: u32,
    pub side: Side,
}

/// Puts into the second bound the least one that holds what either holds. It takes memory for pairs alone.
pub fn widen_bound(
    alloc: Global,
    program: &Unfolded,
    first: &ExportBound,
    second: &mut ExportBound,
) -> Result<(), Memory>
    requires first { length first.now.slots.items ≡ kept (unfolding_of program.now).main }
    requires second { length second.old.slots.items ≡ kept (unfolding_of program.now).main }
    ensures bound { OnOk result (export_bound_in (unfolding_of program.now) second.new
        ≡ either_export (unfolding_of program.now) (export_bound_in (unfolding_of program.now) first.now)
        (export_bound_in (unfolding_of program.now) second.old)) }
    ensures slots { length second.new.slots.items ≡ length second.old.slots.items }
{
    let size = program.size();
    prove!(0 < size);
    let root = Visit {
        program,
        place: 0,
        side: Side::Both,
    };
    let seconds = second.slots.as_mut_slice();
    widen_at(alloc, &root, 0, &first.slots, seconds)?;
    second.value = either(alloc, &first.value, &second.value)?;
    second.sure = first.sure && second.sure;
    Ok(())
}

// Widens the slots of the term at a place, from slot `at` on: the slot behind them.
#[cycle(widen)]
fn widen_at(
    alloc: Global,
    visit: &Visit<'_>,
    at: usize,
    firsts: &[LocalBound],
    seconds: &mut [LocalBound],
) -> Result<usize, Memory>
    requires { CanWidenAt visit.now at firsts.now seconds.old }
    ensures { IfOk result (WidenedAt visit.now at firsts.now seconds.old seconds.new) }
{
    let node = visit.program.node(visit.place);
    if is_if(node) {
        let end = widen_if(alloc, visit, node, at, firsts, seconds)?;
        return Ok(end);
    }
    let from = widen_own(alloc, node, visit.side, at, firsts, seconds)?;
    let kids = node.kids.as_slice();
    let end = widen_kids(alloc, visit, kids, from, firsts, seconds)?;
    Ok(end)
}

// Those of an `if`. Whose slots count in its branches is told by its own slots before they are widened.
#[cycle(widen)]
fn widen_if(
    alloc: Global,
    visit: &Visit<'_>,
    node: &Node,
    at: usize,
    firsts: &[LocalBound],
    seconds: &mut [LocalBound],
) -> Result<usize, Memory>
    requires formed { IsProgram visit.now.program.now }
    requires can { CanWidenAt visit.now at firsts.now seconds.old }
    requires node { view_at visit.now.program.now.nodes visit.now.place ≡ Some (view_of node.now) }
    requires branching { is_branching (sort_of node.now.op) ≡ true }
    ensures { IfOk result (WidenedAt visit.now at firsts.now seconds.old seconds.new) }
{
    let condition = Visit {
        program: visit.program,
        place: node.kids[0],
        side: visit.side,
    };
    let of_true = Visit {
        program: visit.program,
        place: node.kids[1],
        side: branch_side(visit.side, true, at, firsts, seconds),
    };
    let of_false = Visit {
        program: visit.program,
        place: node.kids[2],
        side: branch_side(visit.side, false, at, firsts, seconds),
    };
    widen_slot(alloc, visit.side, at, firsts, seconds)?;
    let first = widen_at(alloc, &condition, at + 1, firsts, seconds)?;
    let second = widen_at(alloc, &of_true, first, firsts, seconds)?;
    let end = widen_at(alloc, &of_false, second, firsts, seconds)?;
    Ok(end)
}

// Those of nodes one after another, all of them kids of the node at a place.
#[cycle(widen)]
fn widen_kids(
    alloc: Global,
    visit: &Visit<'_>,
    kids: &[u32],
    at: usize,
    firsts: &[LocalBound],
    seconds: &mut [LocalBound],
) -> Result<usize, Memory>
    requires { CanWidenKidsAt visit.now kids.now at firsts.now seconds.old }
    ensures { IfOk result (KidsWidenedAt visit.now kids.now at firsts.now seconds.old seconds.new) }
{
    let mut next = at;
    for kid in kids {
        let turn = Visit {
            program: visit.program,
            place: *kid,
            side: visit.side,
        };
        next = widen_at(alloc, &turn, next, firsts, seconds)?;
    }
    Ok(next)
}

// Widens the slot of a node itself, if it keeps something: the slot behind it.
fn widen_own(
    alloc: Global,
    node: &Node,
    side: Side,
    at: usize,
    firsts: &[LocalBound],
    seconds: &mut [LocalBound],
) -> Result<usize, Memory>
    requires { AreThere (after_own (node_keeps node.now) at) firsts.now seconds.old }
    ensures { IfOk result (OwnWidenedAt side (node_keeps node.now) at firsts.now seconds.old seconds.new) }
{
    match &node.op {
        Op::Nbr | Op::Rep | Op::Share | Op::If => {
            widen_slot(alloc, side, at, firsts, seconds)?;
            Ok(at + 1)
        }
        _ => Ok(at),
    }
}

// Widens a slot.
fn widen_slot(
    alloc: Global,
    side: Side,
    at: usize,
    firsts: &[LocalBound],
    seconds: &mut [LocalBound],
) -> Result<(), Memory>
    requires { AreThere (at + 1) firsts.now seconds.old }
    ensures { OnOk result (SlotWidenedAt side at firsts.now seconds.old seconds.new) }
{
    match side {
        Side::Both => {
            seconds[at] = either(alloc, &firsts[at], &seconds[at])?;
            Ok(())
        }
        Side::First => {
            seconds[at] = copy_bound(alloc, &firsts[at])?;
            Ok(())
        }
        Side::Second => Ok(()),
    }
}

// Whose slots count in the branch of a truth value of the `if` with a slot.
fn branch_side(
    side: Side,
    truth: bool,
    at: usize,
    firsts: &[LocalBound],
    seconds: &[LocalBound],
) -> Side
    requires { AreThere (at + 1) firsts.now seconds.now }
    ensures { result ≡ side_in side truth (slot_bound at (local_bounds_in firsts.now))
        (slot_bound at (local_bounds_in seconds.now)) }
{
    match side {
        Side::Both => side_of(may_be(truth, &firsts[at]), may_be(truth, &seconds[at])),
        Side::First => Side::First,
        Side::Second => Side::Second,
    }
}

// Whose slots count where both bounds' did, by whether each may take the branch.
fn side_of(first: bool, second: bool) -> Side
    ensures { result ≡ branch_by first second }
{
    match (first, second) {
        (true, true) => Side::Both,
        (true, false) => Side::First,
        (false, _) => Side::Second,
    }
}
