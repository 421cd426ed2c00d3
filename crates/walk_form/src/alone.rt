//! A term of a program as a program by itself, in which it stands at its place.

ghost use Rattle.std.specs.Prelude.{◌≡◌, ◌<◌, ◌≤◌, ◌∷◌, [], IfOk, length, map};
ghost use Rattle.fc_values.specs.Types.{IntType, BoolType, TypeLocal, type_of};
ghost use Rattle.fc_nodes.specs.Program.{unfolding_of};
ghost use Rattle.fc_nodes.specs.Terms.{Has, sort_of, term_at, view_of};
ghost use Rattle.walk_form.specs.Alone.{AreAlone, alone_term, alone_view, front_view};
ghost use Rattle.walk_form.specs.Parts.{IsWalkPart};
ghost use Rattle.std.specs.Prelude.{Some};
ghost use Rattle.fc_values.specs.declared.limits.TheConstants.{MOST_NODES};

use crate::forms::Span;
use fc_nodes::{Node, Op, Unfolded};
use fc_types::copy_type;
use fc_values::{Builtin, Local, LocalTy, Memory, Ty, copy, copy_declared};
use std::alloc::Global;

/// The program that has a term for its body, at the term's place.
pub fn alone(alloc: Global, program: &Unfolded, term: Span) -> Result<Unfolded, Memory>
    requires { IsWalkPart program.now term }
    ensures declared { IfOk result (λ u. u.declared ≡ program.now.declared) }
    ensures main { IfOk result (λ u. term_at u.nodes 0 ≡ alone_term term.from (term_at program.now.nodes term.from)) }
{
    let declared = copy_declared(alloc, program.declared())?;
    let nodes = nodes_alone(alloc, program, term)?;
    Ok(Unfolded::new(alloc, declared, nodes)?)
}

// The nodes of that program.
fn nodes_alone(alloc: Global, program: &Unfolded, term: Span) -> Result<Vec<Node>, Memory>
    requires end { term.end ≤ length program.now.nodes }
    requires from { 4 ≤ term.from }
    requires few { term.from ≤ MOST_NODES }
    ensures { IfOk result (λ v. AreAlone program.now.nodes term.from term.end v.items) }
{
    let mut nodes = Vec::with_capacity(alloc, term.end as usize)?;
    for place in 0..term.end {
        let node = node_alone(alloc, program, term.from, place)?;
        nodes.push(node)?;
    }
    Ok(nodes)
}

// The node at a place.
fn node_alone(alloc: Global, program: &Unfolded, from: u32, place: u32) -> Result<Node, Memory>
    requires from { 4 ≤ from }
    requires few { from ≤ MOST_NODES }
    requires place { place < length program.now.nodes }
    ensures { IfOk result (λ n. Some (view_of n) ≡ alone_view program.now.nodes from place) }
{
    if place < from {
        return Ok(front_node(alloc, from, place)?);
    }
    Ok(copy_node(alloc, program.node(place))?)
}

// The node at a place before the term.
fn front_node(alloc: Global, from: u32, place: u32) -> Result<Node, Memory>
    requires from { 4 ≤ from }
    requires few { from ≤ MOST_NODES }
    requires place { place < from }
    ensures { IfOk result (λ n. view_of n ≡ front_view from place) }
{
    if place == 0 {
        return Ok(int_node(Op::Rep, vec![in alloc; 1, from]?));
    }
    if place == 1 {
        return Ok(int_node(Op::Let, vec![in alloc; 2, from - 1]?));
    }
    if place + 2 < from {
        return Ok(truth_node(Op::Apply(Builtin::Not), vec![in alloc; place + 1]?));
    }
    if place + 2 == from {
        return Ok(truth_node(Op::Lit(Local::Bool(true)), Vec::new(alloc)));
    }
    Ok(int_node(Op::Lit(Local::Int(0)), Vec::new(alloc)))
}

fn int_node(op: Op, kids: Vec<u32>) -> Node
    ensures { view_of result ≡ Has (sort_of op) (TypeLocal IntType) kids.items }
{
    let ty = Ty::Local(LocalTy::Int);
    Node { op, ty, kids }
}

fn truth_node(op: Op, kids: Vec<u32>) -> Node
    ensures { view_of result ≡ Has (sort_of op) (TypeLocal BoolType) kids.items }
{
    let ty = Ty::Local(LocalTy::Bool);
    Node { op, ty, kids }
}

// A copy of a node.
fn copy_node(alloc: Global, node: &Node) -> Result<Node, Memory>
    ensures { IfOk result (λ n. view_of n ≡ view_of node.now) }
{
    let op = copy_op(alloc, &node.op)?;
    let ty = copy_type(alloc, &node.ty)?;
    let kids = Vec::from_slice(alloc, &node.kids)?;
    Ok(Node { op, ty, kids })
}

fn copy_op(alloc: Global, op: &Op) -> Result<Op, Memory>
    ensures { IfOk result (λ o. sort_of o ≡ sort_of op.now) }
{
    match op {
        Op::Lit(value) => Ok(Op::Lit(copy(alloc, value)?)),
        Op::Var(binder) => Ok(Op::Var(*binder)),
        Op::Sense(input) => Ok(Op::Sense(*input)),
        Op::Uid => Ok(Op::Uid),
        Op::NbrLink => Ok(Op::NbrLink),
        Op::Apply(builtin) => Ok(Op::Apply(*builtin)),
        Op::Nbr => Ok(Op::Nbr),
        Op::Rep => Ok(Op::Rep),
        Op::Share => Ok(Op::Share),
        Op::If => Ok(Op::If),
        Op::Let => Ok(Op::Let),
    }
}
