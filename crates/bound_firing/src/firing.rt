//! The firing of a device over bounds.

ghost use Rattle.std.specs.Prelude.{ℕ, [], ◌≡◌, ◌++◌, IfOk, OnOk, length, map, option_to_list};
ghost use Rattle.fc_nodes.specs.Terms.{kept, kept_types, node_keeps, term_at};
ghost use Rattle.fc_nodes.specs.Program.{unfolding_of};
ghost use Rattle.value_bounds.specs.BoundValues.{Unbounded, anything as anything_of};
ghost use Rattle.value_bounds.specs.References.{local_bounds_in};
ghost use Rattle.bound_firing.specs.BoundTrees.{slot_bound};
ghost use Rattle.bound_firing.specs.Exports.{any_export, bound_export};
ghost use Rattle.bound_firing.specs.Firing.{bound_of};
ghost use Rattle.bound_firing.specs.FlatSeats.{seats_over};
ghost use Rattle.bound_firing.specs.References.{flat_seats_in};
ghost use Rattle.bound_firing.specs.ExportReferences.{export_bound_in, situation_for, SlotsAreLong};

use crate::evaluation::{Context, Scope, Sight, eval, take_local};
use crate::seats::Seats;
use fc_nodes::{Node, Op, Unfolded};
use fc_values::{Memory, inner};
use std::alloc::Global;
use value_bounds::{Bound, LocalBound, anything};

/// A bound of an export: of the value of `main`, of what each kept place keeps in preorder, and whether the export is
/// there for sure.
#[derive(Drop)]
pub struct ExportBound {
    pub value: LocalBound,
    pub slots: Vec<LocalBound>,
    pub sure: bool,
}

/// The bound of any export of a program, which may be missing.
pub fn any_export_bound(alloc: Global, program: &Unfolded) -> Result<ExportBound, Memory>
    ensures bound { IfOk result (λ e. export_bound_in (unfolding_of program.now) e
        ≡ any_export (unfolding_of program.now)) }
    ensures slots { IfOk result (λ e. length e.slots.items ≡ kept (unfolding_of program.now).main) }
{
    let ceiling = program.declared().ceiling;
    let root = program.node(0);
    let value = anything(alloc, ceiling, inner(&root.ty))?;
    let slots = any_slots(alloc, program, ceiling)?;
    Ok(ExportBound {
        value,
        slots,
        sure: false,
    })
}

/// Fires a device over bounds of its inputs and those that its seats have, and writes the bound of its export over
/// another. It is there for sure where the device is.
pub fn fire_bounds(
    alloc: Global,
    program: &Unfolded,
    device: u32,
    inputs: &[LocalBound],
    seats: &Seats<'_>,
    sure: bool,
    target: &mut ExportBound,
) -> Result<(), Memory>
    requires { SlotsAreLong (kept (unfolding_of program.now).main) seats.now target.old.slots.items }
    ensures bound { OnOk result (export_bound_in (unfolding_of program.now) target.new
        ≡ bound_export sure (bound_of (situation_for program.now.declared device (local_bounds_in inputs.now)) 0
        (unfolding_of program.now).main [] (seats_over (unfolding_of program.now).main 0 (flat_seats_in seats.now)))) }
    ensures slots { length target.new.slots.items ≡ length target.old.slots.items }
{
    let slots = target.slots.as_mut_slice();
    clear(slots);
    let context = Context {
        program,
        layout: program.layout(),
        device,
        inputs,
    };
    let sight = Sight {
        seats,
        vars: &Scope::Empty,
    };
    let mut bound = Bound::Any;
    eval(alloc, &context, 0, &sight, slots, &mut bound)?;
    target.value = take_local(&mut bound);
    target.sure = sure;
    Ok(())
}

// Bounds of all that the kept places of a program may keep.
fn any_slots(alloc: Global, program: &Unfolded, ceiling: u32) -> Result<Vec<LocalBound>, Memory>
    ensures { IfOk result (λ v. local_bounds_in v.items
        ≡ map (anything_of ceiling) (kept_types (term_at program.now.nodes 0))) }
{
    let size = program.size();
    let mut slots = Vec::with_capacity(alloc, program.layout().slots() as usize)?;
    for place in 0..size {
        add_any(alloc, ceiling, program.node(place), &mut slots)?;
    }
    Ok(slots)
}

// Adds a bound of all that a node may keep, if it keeps something.
fn add_any(
    alloc: Global,
    ceiling: u32,
    node: &Node,
    slots: &mut Vec<LocalBound>,
) -> Result<(), Memory>
    ensures { OnOk result (local_bounds_in slots.new.items ≡ local_bounds_in slots.old.items
        ++ map (anything_of ceiling) (option_to_list (node_keeps node.now))) }
{
    match &node.op {
        Op::Nbr | Op::Rep | Op::Share => slots.push(anything(alloc, ceiling, inner(&node.ty))?)?,
        Op::If => slots.push(LocalBound::Truths(false, true))?,
        _ => {}
    }
    Ok(())
}

// Says nothing of any slot.
fn clear(slots: &mut [LocalBound])
    ensures { (k : ℕ) → slot_bound k (local_bounds_in slots.new) ≡ Unbounded }
{
    for slot in slots.iter_mut() {
        *slot = LocalBound::Unbounded;
    }
}
