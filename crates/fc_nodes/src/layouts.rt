//! Which slot each kept place of a program has.

ghost use Rattle.std.specs.Prelude.{◌≡◌, ◌<◌, ◌≤◌, ◌^◌, [], ◌∷◌, ◌++◌, IfOk, IsSome, OnOk, length, option_map, option_to_list, Some};
ghost use Rattle.fc_values.specs.Values.{local_of, form_of};
ghost use Rattle.fc_values.specs.declared.limits.TheConstants.{MOST_NODES};
ghost use Rattle.fc_nodes.specs.Terms.{node_keeps, view_at, view_of, WellFormed};
ghost use Rattle.fc_nodes.specs.Layouts.{IsLayout, number_in, forms_of, forms_kept, next_number};

use crate::nodes::{Node, Op};
use fc_values::{Local, Memory, blank_of, inner};
use std::alloc::Global;
use std::marker::Model;

/// The slot of each kept place of a program, and a value of each slot's type.
#[derive(Drop)]
pub struct Layout {
    numbers: Vec<Option<u32>>,
    blanks: Vec<Local>,
}

impl Model for Layout {
    ghost use Rattle.std.specs.Prelude.{◌<◌, ◌^◌, length};
    ghost use Rattle.std.specs.Coded.{codes};
    ghost use Rattle.fc_values.specs.contracts.values.Local as local;
    ghost use Rattle.fc_nodes.specs.Layouts.{LayoutValue};

    ghost Value = { LayoutValue };

    ghost coded = { Prim.hlevel (codes, local.the_row.coded) };

    ghost view = { λ l. record { numbers = l.numbers.items; blanks = l.blanks.items } };

    ghost invariant = { λ l. length l.blanks.items < 2 ^ 32 };
}

impl Layout {
    // The layout of a program's nodes.
    pub(crate) fn of(alloc: Global, nodes: &[Node]) -> Result<Layout, Memory>
        requires formed { WellFormed nodes.now }
        requires short { length nodes.now ≤ MOST_NODES }
        ensures { IfOk result (λ l. IsLayout nodes.now l) }
    {
        let size = nodes.len() as u32;
        let mut numbers = Vec::with_capacity(alloc, nodes.len())?;
        let mut blanks = Vec::new(alloc);
        for place in 0..size {
            add(alloc, node_at(nodes, place), &mut numbers, &mut blanks)?;
        }
        Ok(Layout { numbers, blanks })
    }

    /// The slot of a kept place, and none for another place.
    pub fn slot(&self, place: u32) -> Option<u32>
        ensures { result ≡ number_in self.now place }
    {
        match self.numbers.get(place as usize) {
            Some(number) => *number,
            None => None,
        }
    }

    /// A value of the type of each slot.
    pub fn blanks(&self) -> &[Local]
        ensures { result.now ≡ self.now.blanks }
    {
        self.blanks.as_slice()
    }

    /// The number of slots.
    pub fn slots(&self) -> u32
        ensures { result ≡ length self.now.blanks }
    {
        self.blanks.len() as u32
    }
}

// The node at a place.
pub(crate) fn node_at(nodes: &[Node], place: u32) -> &Node
    requires { place < length nodes.now }
    ensures { view_at nodes.now place ≡ Some (view_of result.now) }
{
    &nodes[place as usize]
}

// Adds a node, and a slot for it if it keeps a value.
fn add(
    alloc: Global,
    node: &Node,
    numbers: &mut Vec<Option<u32>>,
    blanks: &mut Vec<Local>,
) -> Result<(), Memory>
    requires { length blanks.old.items < 2 ^ 32 }
    ensures numbers { OnOk result (numbers.new.items ≡ numbers.old.items
        ++ next_number blanks.old.items node.now ∷ []) }
    ensures blanks { OnOk result (forms_of blanks.new.items ≡ forms_of blanks.old.items ++ forms_kept node.now) }
{
    match blank(alloc, node)? {
        Some(value) => {
            numbers.push(Some(blanks.len() as u32))?;
            blanks.push(value)?;
        }
        None => numbers.push(None)?,
    }
    Ok(())
}

// A value of the type that a node keeps, if it keeps one.
fn blank(alloc: Global, node: &Node) -> Result<Option<Local>, Memory>
    ensures { IfOk result (λ o. option_map (λ v. form_of (local_of v)) o ≡ node_keeps node.now) }
{
    match &node.op {
        Op::Nbr | Op::Rep | Op::Share => Ok(Some(blank_of(alloc, inner(&node.ty))?)),
        Op::If => Ok(Some(Local::Bool(false))),
        _ => Ok(None),
    }
}

/// The slot of a kept place.
pub fn slot_of(layout: &Layout, place: u32) -> u32
    requires { IsSome (number_in layout.now place) }
    ensures { number_in layout.now place ≡ Some result }
{
    match layout.slot(place) {
        Some(slot) => slot,
        None => unreachable!(),
    }
}
