//! What a guess is made for, and what it has found so far.

ghost use Rattle.std.specs.Prelude.{◌<◌, length};

use crate::columns::{Column, Spread, at_device};
use crate::groups::{Group, LinkEnd};
use fc_nodes::{Node, Op, Unfolded};
use fc_values::{LocalTy, Memory, Slot, Ty, inner};
use std::alloc::Global;
use topology::Network;

/// A program, a network with the counts of its devices and links, each `rep` or `share` with a potential with the place
/// of the potential's binder, and the sources of terms.
#[derive(Drop)]
pub struct Context<'a> {
    pub alloc: Global,
    pub program: &'a Unfolded,
    pub net: &'a Network,
    pub potentials: &'a [(u32, u32)],
    pub sources: Vec<u32>,
    pub devices: usize,
    pub links: usize,
}

impl<'a> Context<'a> {
    /// The node at a place, if there is one.
    pub fn node(&self, place: u32) -> Option<&'a Node> {
        node_at(self.program, place)
    }

    /// Whether the variable of a binder occurs in the term at a place.
    pub fn occurs(&self, binder: u32, place: u32) -> bool {
        place < self.program.size() && occurs_at(self.program, binder, place)
    }

    /// The place whose column has the values of a term.
    pub fn source(&self, place: u32) -> u32 {
        match self.sources.get(place as usize) {
            Some(source) => *source,
            None => place,
        }
    }
}

/// For each place that whose column has the values of the term there. The variables of a `let` and of a `rep` have none
/// of their own.
pub fn sources(alloc: Global, program: &Unfolded) -> Result<Vec<u32>, Memory> {
    let mut list: Vec<u32> = Vec::with_capacity(alloc, program.size() as usize)?;
    for place in 0..program.size() {
        let source = match bound(program, place) {
            Some(term) => match list.get(term as usize) {
                Some(source) => *source,
                None => place,
            },
            None => place,
        };
        list.push(source)?;
    }
    Ok(list)
}

// What the variable at a place is of: the term that a `let` binds, or a `rep`.
fn bound(program: &Unfolded, place: u32) -> Option<u32> {
    let Op::Var(binder) = &node_at(program, place)?.op else {
        return None;
    };
    let node = node_at(program, *binder)?;
    match &node.op {
        Op::Let => Some(kid(node, 0)),
        Op::Rep => Some(*binder),
        _ => None,
    }
}

/// The place of a node's kid.
pub fn kid(node: &Node, index: usize) -> u32 {
    match node.kids.get(index) {
        Some(place) => *place,
        None => 0,
    }
}

fn node_at(program: &Unfolded, place: u32) -> Option<&Node> {
    if place < program.size() {
        Some(program.node(place))
    } else {
        None
    }
}

// Whether the variable of a binder occurs in the term at a place of a program.
fn occurs_at(program: &Unfolded, binder: u32, place: u32) -> bool
    requires { place < length program.now.nodes }
{
    let _node = program.node(place);
    program.occurs(binder, place)
}

// How many leaves a value of a type has.
fn width(ty: &LocalTy) -> usize {
    match ty {
        LocalTy::Int => 1,
        LocalTy::Bool => 1,
        LocalTy::Pair(a, b) => width(a).saturating_add(width(b)),
    }
}

/// The devices and links at which terms are evaluated, all of them of a group.
#[derive(Clone, Copy)]
pub struct View<'a> {
    pub context: &'a Context<'a>,
    pub group: &'a Group,
    pub devices: &'a [u32],
    pub link_ends: &'a [LinkEnd],
}

impl<'a> View<'a> {
    /// All of a group.
    pub fn all(context: &'a Context<'a>, group: &'a Group) -> View<'a> {
        View {
            context,
            group,
            devices: &group.members,
            link_ends: &group.link_ends,
        }
    }
}

/// The columns of nodes by their places, and the slots of each device.
#[derive(Drop)]
pub struct Work {
    pub columns: Vec<Option<Column>>,
    pub slots: Vec<Vec<Slot>>,
    pub none: Column,
}

impl Work {
    /// The column at a place, or an empty one.
    pub fn column(&self, place: u32) -> &Column {
        match self.columns.get(place as usize) {
            Some(Some(column)) => column,
            _ => &self.none,
        }
    }

    /// Keeps a column.
    pub fn keep(&mut self, place: u32, column: Column) {
        if let Some(cell) = self.columns.get_mut(place as usize) {
            *cell = Some(column);
        }
    }

    /// Takes the column out of a place, if it has one.
    pub fn take(&mut self, place: u32) -> Option<Column> {
        self.columns.get_mut(place as usize)?.take()
    }

    /// The column of a node, taken out of its place, or zeros.
    pub fn open(
        &mut self,
        context: &Context<'_>,
        place: u32,
        node: &Node,
    ) -> Result<Column, Memory> {
        if let Some(column) = self.take(place) {
            return Ok(column);
        }
        let (spread, many) = match &node.ty {
            Ty::Field(_) => (Spread::Links, context.links),
            Ty::Local(_) => (Spread::Devices, context.devices),
        };
        Column::zeros(context.alloc, spread, width(inner(&node.ty)), many)
    }

    /// Copies the local values of a term at the devices of a view to a place.
    pub fn copy(&mut self, view: &View<'_>, from: u32, place: u32) -> Result<(), Memory> {
        let context = view.context;
        let Some(node) = context.node(place) else {
            return Ok(());
        };
        let mut own = self.open(context, place, node)?;
        let column = self.column(context.source(from));
        for device in view.devices {
            own.carry(at_device(*device), column, at_device(*device));
        }
        self.keep(place, own);
        Ok(())
    }
}
