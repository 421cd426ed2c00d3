//! Walks over the slots of an export, along the nodes of a program.

ghost use Rattle.std.specs.Prelude.{◌≡◌, ◌↔◌, ◌+◌, ◌<◌, ◌&&◌, IsTrue, length, Some, true};
ghost use Rattle.fc_values.specs.Types.{local_type_of, BoolType};
ghost use Rattle.fc_values.specs.Values.{local_of, form_of};
ghost use Rattle.fc_values.specs.Exports.{slot_of, slots_of, slot_at};
ghost use Rattle.fc_nodes.specs.Terms.{is_branching, node_keeps, sort_of, view_at, view_of};
ghost use Rattle.fc_nodes.specs.Program.{unfolding_of, IsProgram};
ghost use Rattle.value_trees.specs.Snaps.{IsExportOf};
ghost use Rattle.value_trees.specs.SlotFits.{SlotFits, ValueFits, ValueSlotFits, WalkIs, truth_in};
ghost use Rattle.value_trees.specs.Walks.{FitsMain, WalksOwn, WalksTerm, WalksTerms, ends_at};
ghost use Rattle.fc_nodes.specs.Places.{StandsAt, StandAfter};

use fc_nodes::{Node, Op, Unfolded, is_if};
use fc_values::{Export, Local, LocalTy, Slot, fits, inner};

/// Whether an export is a well-typed export of a program. It takes no memory.
pub fn well_typed(program: &Unfolded, e: &Export) -> bool
    ensures { IsTrue result ↔ IsExportOf (unfolding_of program.now) e.now }
{
    let slots = e.slots.list.as_slice();
    fits_main(program, &e.value) && ends_with(walk(program, slots, 0, 0, true), slots.len())
}

/// Whether a value fits the type of `main`.
pub fn fits_main(program: &Unfolded, value: &Local) -> bool
    ensures value { IsTrue result ↔ FitsMain (unfolding_of program.now) (local_of value.now) }
    ensures program { IsProgram program.now }
{
    let ceiling = program.declared().ceiling;
    let main = program.node(0);
    fits(inner(&main.ty), value, ceiling)
}

// Whether a walk ends at a slot.
fn ends_with(end: Option<usize>, slot: usize) -> bool
    ensures { result ≡ ends_at slot end }
{
    match end {
        Some(end) => end == slot,
        None => false,
    }
}

// Walks over the slots of the term at a place, from slot `at` on: the slot after them, or none where one doesn't fit.
#[cycle(walk)]
fn walk(program: &Unfolded, slots: &[Slot], place: u32, at: usize, taken: bool) -> Option<usize>
    requires { StandsAt program.now.nodes place }
    ensures { WalksTerm program.now place taken slots.now at result }
{
    let node = program.node(place);
    let from = own_slot(program, node, slots, at, taken)?;
    if is_if(node) {
        walk_if(program, node, slots, place, at, taken)
    } else {
        let kids = node.kids.as_slice();
        walk_kids(program, kids, slots, place, from, taken)
    }
}

// The slots of the kids of an `if` whose own slot fits.
#[cycle(walk)]
fn walk_if(
    program: &Unfolded,
    node: &Node,
    slots: &[Slot],
    place: u32,
    at: usize,
    taken: bool,
) -> Option<usize>
    requires formed { IsProgram program.now }
    requires stands { StandsAt program.now.nodes place }
    requires node { view_at program.now.nodes place ≡ Some (view_of node.now) }
    requires branching { is_branching (sort_of node.now.op) ≡ true }
    requires own { SlotFits taken program.now.declared.ceiling BoolType at (slots_of slots.now) }
    ensures { WalksTerm program.now place taken slots.now at result }
{
    let truth = truth_at(slots, at);
    let first = walk(program, slots, node.kids[0], at + 1, taken)?;
    let second = walk(program, slots, node.kids[1], first, both(taken, truth))?;
    let third = walk(program, slots, node.kids[2], second, both(taken, !truth))?;
    Some(third)
}

// The slots of nodes one after another, all of them kids of the node at a place.
#[cycle(walk)]
fn walk_kids(
    program: &Unfolded,
    kids: &[u32],
    slots: &[Slot],
    place: u32,
    at: usize,
    taken: bool,
) -> Option<usize>
    requires { StandAfter program.now.nodes place kids.now }
    ensures { WalksTerms program.now kids.now taken slots.now at result }
{
    let mut next = at;
    for kid in kids {
        next = walk(program, slots, *kid, next, taken)?;
    }
    Some(next)
}

// The slot of a node itself, if it keeps something: the slot after it, or none where it doesn't fit.
fn own_slot(
    program: &Unfolded,
    node: &Node,
    slots: &[Slot],
    at: usize,
    taken: bool,
) -> Option<usize>
    ensures { WalksOwn program.now (node_keeps node.now) taken slots.now at result }
{
    let ceiling = program.declared().ceiling;
    match &node.op {
        Op::Nbr | Op::Rep | Op::Share => one_slot(inner(&node.ty), slots, at, taken, ceiling),
        Op::If => one_slot(&LocalTy::Bool, slots, at, taken, ceiling),
        _ => Some(at),
    }
}

// The slot after one that fits.
fn one_slot(ty: &LocalTy, slots: &[Slot], at: usize, taken: bool, ceiling: u32) -> Option<usize>
    ensures { WalkIs (SlotFits taken ceiling (local_type_of ty.now) at (slots_of slots.now)) (at + 1) result }
{
    if at >= slots.len() {
        return None;
    }
    if slot_fits(ty, &slots[at], taken, ceiling) {
        Some(at + 1)
    } else {
        None
    }
}

// Whether a slot is kept or not, as asked, and its value fits.
fn slot_fits(ty: &LocalTy, slot: &Slot, taken: bool, ceiling: u32) -> bool
    ensures { IsTrue result ↔ ValueSlotFits taken ceiling (local_type_of ty.now) (slot_of slot.now) }
{
    slot.kept == taken && slot_value_fits(ty, &slot.value, taken, ceiling)
}

// Whether the value of a slot fits: one that is kept by its type and the ceiling, any other by its form.
fn slot_value_fits(ty: &LocalTy, value: &Local, taken: bool, ceiling: u32) -> bool
    ensures { IsTrue result ↔ ValueFits taken ceiling (local_type_of ty.now) (local_of value.now) }
{
    if taken {
        fits(ty, value, ceiling)
    } else {
        has_form(ty, value)
    }
}

// Whether a value has the form of a type.
fn has_form(ty: &LocalTy, value: &Local) -> bool
    ensures { IsTrue result ↔ (form_of (local_of value.now) ≡ local_type_of ty.now) }
{
    match (ty, value) {
        (LocalTy::Int, Local::Int(_)) => true,
        (LocalTy::Bool, Local::Bool(_)) => true,
        (LocalTy::Pair(a, b), Local::Pair(x, y)) => has_form(a, x) && has_form(b, y),
        _ => false,
    }
}

/// The truth that the value of a slot names.
pub fn truth_at(slots: &[Slot], at: usize) -> bool
    requires { at < length (slots_of slots.now) }
    ensures { result ≡ truth_in (slot_at at (slots_of slots.now)).1 }
{
    truth_of(&slots[at].value)
}

fn truth_of(value: &Local) -> bool
    ensures { result ≡ truth_in (local_of value.now) }
{
    match value {
        Local::Bool(b) => *b,
        _ => false,
    }
}

pub fn both(a: bool, b: bool) -> bool
    ensures { result ≡ (a && b) }
{
    a && b
}
