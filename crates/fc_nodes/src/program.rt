//! Unfolded programs.

ghost use Rattle.std.specs.Prelude.{◌≡◌};

use crate::layouts::Layout;
use crate::nodes::{Node, is_own};
use crate::uses::{before, ends_of, uses_of};
use fc_values::{Declared, Memory};
use std::alloc::Global;
use std::marker::Model;

/// A program whose calls are unfolded: its declarations, its nodes in preorder, and their layout; for each place, the
/// first place after the term there, and for each binder, the places of its variable.
#[derive(Drop)]
pub struct Unfolded {
    declared: Declared,
    nodes: Vec<Node>,
    layout: Layout,
    ends: Vec<u32>,
    uses: Vec<Vec<u32>>,
}

impl Model for Unfolded {
    ghost use Rattle.fc_values.specs.Types.{declarations_of};
    ghost use Rattle.fc_nodes.specs.Program.{Program, IsProgram};
    ghost use Rattle.fc_nodes.specs.Layouts.{IsLayout};
    ghost use Rattle.fc_nodes.specs.Occurrences.{AreEnds, AreUses, lists_of};
    ghost use Rattle.std.specs.Coded.{codes};
    ghost use Rattle.fc_values.specs.contracts.values.Local as local;
    ghost use Rattle.fc_values.specs.contracts.types.LocalTy as local_ty;

    ghost Value = { Program };

    ghost coded = { Prim.hlevel (codes, local.the_row.coded, local_ty.the_row.coded) };

    ghost view = { λ u. record { declared = declarations_of u.declared; nodes = u.nodes.items } };

    ghost invariant = { λ u. IsProgram (record { declared = declarations_of u.declared; nodes = u.nodes.items })
        × IsLayout u.nodes.items u.layout × AreEnds u.nodes.items u.ends.items
        × AreUses u.nodes.items (lists_of u.uses.items) };
}

impl Unfolded {
    ghost use Rattle.std.specs.Prelude.{◌≡◌, ◌<◌, IfOk, length, Some};
    ghost use Rattle.fc_values.specs.Types.{declarations_of};
    ghost use Rattle.fc_nodes.specs.Terms.{term_at, view_at, view_of};
    ghost use Rattle.fc_nodes.specs.Program.{IsProgram};
    ghost use Rattle.fc_nodes.specs.Layouts.{IsLayout};
    ghost use Rattle.fc_nodes.specs.Places.{StandsAt};
    ghost use Rattle.fc_nodes.specs.Variables.{occurs as occurs_in_term, is_own as is_own_term};

    /// The program with these declarations and nodes.
    pub fn new(alloc: Global, declared: Declared, nodes: Vec<Node>) -> Result<Self, Memory>
        requires { IsProgram (record { declared = declarations_of declared; nodes = nodes.items }) }
        ensures { IfOk result (λ u. u ≡ record { declared = declarations_of declared; nodes = nodes.items }) }
    {
        let layout = Layout::of(alloc, nodes.as_slice())?;
        let ends = ends_of(alloc, nodes.as_slice())?;
        let uses = uses_of(alloc, nodes.as_slice())?;
        Ok(Unfolded {
            declared,
            nodes,
            layout,
            ends,
            uses,
        })
    }

    /// The layout of the program's kept places, which is made once.
    pub fn layout(&self) -> &Layout
        ensures layout { IsLayout self.now.nodes result.now }
        ensures program { IsProgram self.now }
    {
        &self.layout
    }

    /// What the program declares.
    pub fn declared(&self) -> &Declared
        ensures value { declarations_of result.now ≡ self.now.declared }
        ensures program { IsProgram self.now }
    {
        &self.declared
    }

    /// The number of nodes.
    pub fn size(&self) -> u32
        ensures value { result ≡ length self.now.nodes }
        ensures program { IsProgram self.now }
    {
        self.nodes.len() as u32
    }

    /// The node at a place.
    pub fn node(&self, place: u32) -> &Node
        requires { place < length self.now.nodes }
        ensures node { view_at self.now.nodes place ≡ Some (view_of result.now) }
        ensures program { IsProgram self.now }
    {
        &self.nodes[place as usize]
    }

    /// Whether the variable of a binder occurs in the term at a place. Two binary searches tell: one counts the uses of
    /// the binder before the term, one those before its end.
    pub fn occurs(&self, binder: u32, place: u32) -> bool
        requires { StandsAt self.now.nodes place }
        ensures { result ≡ occurs_in_term binder (term_at self.now.nodes place) }
    {
        if binder as usize >= self.uses.len() {
            return false;
        }
        let uses = self.uses[binder as usize].as_slice();
        before(uses, place) < before(uses, self.ends[place as usize])
    }

    /// Whether the term at a place is the variable of a binder.
    pub fn is_own(&self, binder: u32, place: u32) -> bool
        requires { StandsAt self.now.nodes place }
        ensures { result ≡ is_own_term binder (term_at self.now.nodes place) }
    {
        is_own(self.node(place), binder)
    }
}

/// The greatest integer of a program.
pub fn ceiling_of(program: &Unfolded) -> u32
    ensures { result ≡ program.now.declared.ceiling }
{
    program.declared.ceiling
}

/// The least weight of a link.
pub fn least_weight(program: &Unfolded) -> u32
    ensures { result ≡ program.now.declared.least }
{
    program.declared.metric.0
}
