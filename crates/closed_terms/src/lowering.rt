//! Nodes with their places and binders counted from another root.

ghost use Rattle.std.specs.Prelude.{◌≡◌, ◌-◌, ◌++◌, IfOk, OnOk, map};
ghost use Rattle.fc_nodes.specs.Terms.{sort_of, view_of};
ghost use Rattle.closed_terms.specs.Parts.{lowered_sort, lowered_view};

use fc_nodes::{Node, Op};
use fc_types::copy_type;
use fc_values::{Memory, copy};
use std::alloc::Global;

/// A node as it is counted from a root.
pub fn lowered(alloc: Global, node: &Node, root: u32) -> Result<Node, Memory>
    ensures { IfOk result (λ n. view_of n ≡ lowered_view root (view_of node.now)) }
{
    let op = lowered_op(alloc, &node.op, root)?;
    let ty = copy_type(alloc, &node.ty)?;
    let mut kids = Vec::with_capacity(alloc, node.kids.len())?;
    add_lowered(&node.kids, root, &mut kids)?;
    Ok(Node { op, ty, kids })
}

fn lowered_op(alloc: Global, op: &Op, root: u32) -> Result<Op, Memory>
    ensures { IfOk result (λ o. sort_of o ≡ lowered_sort root (sort_of op.now)) }
{
    match op {
        Op::Lit(value) => Ok(Op::Lit(copy(alloc, value)?)),
        Op::Var(binder) => Ok(Op::Var(binder.saturating_sub(root))),
        Op::Sense(input) => Ok(Op::Sense(*input)),
        Op::Uid => Ok(Op::Uid),
        Op::NbrLink => Ok(Op::NbrLink),
        Op::Apply(builtin) => Ok(Op::Apply(*builtin)),
        Op::Nbr => Ok(Op::Nbr),
        Op::Rep => Ok(Op::Rep),
        Op::Share => Ok(Op::Share),
        Op::If => Ok(Op::If),
        Op::Let => Ok(Op::Let),
    }
}

// Adds places.
fn add_lowered(places: &[u32], root: u32, list: &mut Vec<u32>) -> Result<(), Memory>
    ensures { OnOk result (list.new.items ≡ list.old.items ++ map (λ q. q - root) places.now) }
{
    let Some((first, rest)) = places.split_first() else {
        return Ok(());
    };
    list.push(first.saturating_sub(root))?;
    add_lowered(rest, root, list)?;
    Ok(())
}
