//! The nodes of a program.

ghost use Rattle.std.specs.Prelude.{◌≡◌};
ghost use Rattle.fc_nodes.specs.Terms.{is_branching, sort_of};
ghost use Rattle.fc_nodes.specs.Sorts.{is_own_sort, is_nbr_sort, is_let_sort, is_evolve_sort, is_share_sort, is_deep_sort};

use fc_values::{Builtin, Local, Ty};

/// What a node is. A variable is named by the place of the `let`, `rep` or `share` that binds it, an input by its
/// number from 0 in declared order.
#[derive(Drop)]
pub enum Op {
    Lit(Local),
    Var(u32),
    Sense(u32),
    Uid,
    NbrLink,
    Apply(Builtin),
    Nbr,
    Rep,
    Share,
    If,
    Let,
}

/// A node: what it is, its type, and the places of its kids in order. A place is a node's number in preorder from 0.
#[derive(Drop)]
pub struct Node {
    pub op: Op,
    pub ty: Ty,
    pub kids: Vec<u32>,
}

/// Whether a node is an `if`.
pub fn is_if(node: &Node) -> bool
    ensures { result ≡ is_branching (sort_of node.now.op) }
{
    match &node.op {
        Op::If => true,
        _ => false,
    }
}

/// Whether a node is the variable of the binder at a place.
pub fn is_own(node: &Node, binder: u32) -> bool
    ensures { result ≡ is_own_sort binder (sort_of node.now.op) }
{
    match &node.op {
        Op::Var(place) => *place == binder,
        _ => false,
    }
}

/// Whether a node is an `nbr`.
pub fn is_nbr(node: &Node) -> bool
    ensures { result ≡ is_nbr_sort (sort_of node.now.op) }
{
    match &node.op {
        Op::Nbr => true,
        _ => false,
    }
}

/// Whether a node is a `let`.
pub fn is_let(node: &Node) -> bool
    ensures { result ≡ is_let_sort (sort_of node.now.op) }
{
    match &node.op {
        Op::Let => true,
        _ => false,
    }
}

/// Whether a node is a `rep` or a `share`.
pub fn is_evolving(node: &Node) -> bool
    ensures { result ≡ is_evolve_sort (sort_of node.now.op) }
{
    match &node.op {
        Op::Rep | Op::Share => true,
        _ => false,
    }
}

/// Whether a node is a `share`.
pub fn is_share(node: &Node) -> bool
    ensures { result ≡ is_share_sort (sort_of node.now.op) }
{
    match &node.op {
        Op::Share => true,
        _ => false,
    }
}

/// Whether a node is a `rep`, a `share`, an `if` or a `let`.
pub fn is_deep(node: &Node) -> bool
    ensures { result ≡ is_deep_sort (sort_of node.now.op) }
{
    match &node.op {
        Op::Rep | Op::Share | Op::If | Op::Let => true,
        _ => false,
    }
}
