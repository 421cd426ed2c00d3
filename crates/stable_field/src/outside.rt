//! The slots of what a program keeps outside first values.

ghost use Rattle.std.specs.Prelude.{◌≡◌, IfOk, OnOk, drop};
ghost use Rattle.fc_nodes.specs.Terms.{sort_of};
ghost use Rattle.fc_nodes.specs.Program.{unfolding_of};
ghost use Rattle.fc_nodes.specs.Places.{StandsAt, StandAfter};
ghost use Rattle.stable_field.specs.Outside.{AreOutside, AddsOwn, AddsTerm, AddsTerms, outside_of};

use fc_nodes::{Node, Op, Unfolded};
use fc_values::Memory;
use std::alloc::Global;

/// The slots of what a program keeps outside first values.
pub fn slots_outside(alloc: Global, program: &Unfolded) -> Result<Vec<u32>, Memory>
    ensures { IfOk result (λ v. AreOutside (unfolding_of program.now).main v.items) }
{
    let _program = program.declared();
    let mut slots = Vec::with_capacity(alloc, program.layout().slots() as usize)?;
    add_term(program, 0, &mut slots)?;
    Ok(slots)
}

// Adds the slots of the term at a place.
#[cycle(add_term)]
fn add_term(program: &Unfolded, place: u32, slots: &mut Vec<u32>) -> Result<(), Memory>
    requires { StandsAt program.now.nodes place }
    ensures { OnOk result (AddsTerm program.now place slots.old.items slots.new.items) }
{
    let node = program.node(place);
    add_own(program, place, slots)?;
    add_terms(program, kids_outside(node), place, slots)?;
    Ok(())
}

// Adds the slots of terms at places behind a place.
#[cycle(add_term)]
fn add_terms(
    program: &Unfolded,
    kids: &[u32],
    place: u32,
    slots: &mut Vec<u32>,
) -> Result<(), Memory>
    requires { StandAfter program.now.nodes place kids.now }
    ensures { OnOk result (AddsTerms program.now kids.now slots.old.items slots.new.items) }
{
    for kid in kids {
        add_term(program, *kid, slots)?;
    }
    Ok(())
}

// Adds the slot of the node at a place, if it has one.
fn add_own(program: &Unfolded, place: u32, slots: &mut Vec<u32>) -> Result<(), Memory>
    ensures { OnOk result (AddsOwn program.now place slots.old.items slots.new.items) }
{
    match program.layout().slot(place) {
        Some(slot) => {
            slots.push(slot)?;
            Ok(())
        }
        None => Ok(()),
    }
}

// The kids of a node that aren't first values.
fn kids_outside(node: &Node) -> &[u32]
    ensures { result.now ≡ outside_of (sort_of node.now.op) node.now.kids.items }
{
    match &node.op {
        Op::Rep | Op::Share => behind_first(&node.kids),
        _ => &node.kids,
    }
}

fn behind_first(kids: &[u32]) -> &[u32]
    ensures { result.now ≡ drop 1 kids.now }
{
    match kids.split_first() {
        Some((_, rest)) => rest,
        None => &[],
    }
}
