//! Closed terms as programs.

ghost use Rattle.std.specs.Prelude.{◌≡◌, ◌≤◌, ◌-◌, IfOk, length};
ghost use Rattle.closed_terms.specs.Parts.{IsClosedTerm, IsLowered, IsClosedPart};

use crate::lowering::lowered;
use fc_nodes::{Node, Unfolded};
use fc_values::{Memory, copy_declared};
use std::alloc::Global;

/// The closed term at a place, which ends before another place, as a program.
pub fn part(alloc: Global, program: &Unfolded, place: u32, end: u32) -> Result<Unfolded, Memory>
    requires { IsClosedTerm program.now place end }
    ensures { IfOk result (IsClosedPart program.now place) }
{
    let nodes = nodes(alloc, program, place, end)?;
    let declared = copy_declared(alloc, program.declared())?;
    Ok(Unfolded::new(alloc, declared, nodes)?)
}

// The nodes between two places, as they are counted from the first.
fn nodes(alloc: Global, program: &Unfolded, place: u32, end: u32) -> Result<Vec<Node>, Memory>
    requires order { place ≤ end }
    requires within { end ≤ length program.now.nodes }
    ensures nodes { IfOk result (λ v. IsLowered place program.now.nodes v.items) }
    ensures many { IfOk result (λ v. length v.items ≡ end - place) }
{
    let mut list = Vec::with_capacity(alloc, (end - place) as usize)?;
    for at in place..end {
        let node = lowered(alloc, program.node(at), place)?;
        list.push(node)?;
    }
    Ok(list)
}
