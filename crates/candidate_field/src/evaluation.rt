//! The nodes of a program over the devices that reach them, one after another.

use crate::columns::{Column, Spread};
use crate::exports::{blank, exports, keep};
use crate::groups::Group;
use crate::nodes::put;
use crate::orders::{order_of, solve};
use crate::work::{Context, View, Work, kid, sources};
use fc_nodes::{Node, Op, Unfolded};
use fc_values::{Export, LocalTy, Memory, inner};
use std::alloc::Global;
use topology::Network;

/// Exports that the devices of a network might have once a program has stabilised, in the order of the network.
/// Potentials are pairs of the place of a `rep` or `share` and that of the binder whose variable its guards compare.
pub fn candidate(
    alloc: Global,
    program: &Unfolded,
    net: &Network,
    potentials: &[(u32, u32)],
) -> Result<Vec<Option<Export>>, Memory> {
    let group = Group::all(alloc, net)?;
    let context = Context {
        alloc,
        program,
        net,
        potentials,
        sources: sources(alloc, program)?,
        devices: group.members.len(),
        links: group.link_ends.len(),
    };
    let size = program.size();
    let mut columns = Vec::with_capacity(alloc, size as usize)?;
    for _ in 0..size {
        columns.push(None)?;
    }
    let mut work = Work {
        columns,
        slots: blank(&context, program.layout().blanks())?,
        none: Column::zeros(alloc, Spread::Everywhere, 0, 0)?,
    };
    evaluate(&View::all(&context, &group), &mut work, 0, size)?;
    exports(&context, work)
}

// Evaluates the term at a place at all of a group: its column, and what its nodes keep. Of its nodes it alone has a
// column then.
#[cycle(evaluate)]
fn evaluate(view: &View<'_>, work: &mut Work, place: u32, fuel: u32) -> Result<(), Memory> {
    let Some(node) = view.context.node(place) else {
        return Ok(());
    };
    if fuel == 0 || view.devices.is_empty() {
        return Ok(());
    }
    match &node.op {
        Op::Rep | Op::Share => evolve(view, work, place, node, fuel - 1)?,
        Op::If => branch(view, work, place, node, fuel - 1)?,
        _ => {
            for kid in &node.kids {
                evaluate(view, work, *kid, fuel - 1)?;
            }
            put(view, work, place, node)?;
        }
    }
    finish(view, work, place, node)
}

// Keeps what a node keeps, an `nbr` the value of its kid, an `if` that of its condition, a `rep` or `share` its own, and
// gives up the columns of its kids.
fn finish(view: &View<'_>, work: &mut Work, place: u32, node: &Node) -> Result<(), Memory> {
    if let Some(slot) = view.context.program.layout().slot(place) {
        let first = view.context.source(kid(node, 0));
        match &node.op {
            Op::If => keep(view, work, slot, &LocalTy::Bool, first)?,
            Op::Nbr => keep(view, work, slot, inner(&node.ty), first)?,
            _ => keep(view, work, slot, inner(&node.ty), place)?,
        }
    }
    for kid in &node.kids {
        let _ = work.take(*kid);
    }
    Ok(())
}

#[cycle(evaluate)]
fn evolve(
    view: &View<'_>,
    work: &mut Work,
    place: u32,
    node: &Node,
    fuel: u32,
) -> Result<(), Memory> {
    evaluate(view, work, kid(node, 0), fuel)?;
    let Some(order) = order_of(view.context, place, node)? else {
        evaluate(view, work, kid(node, 1), fuel)?;
        return work.copy(view, kid(node, 1), place);
    };
    for term in &order.parts {
        evaluate(view, work, *term, fuel)?;
    }
    solve(view, work, place, node, &order)?;
    for within in &order.plan {
        if let Some(node) = view.context.node(*within) {
            finish(view, work, *within, node)?;
        }
    }
    Ok(())
}

#[cycle(evaluate)]
fn branch(
    view: &View<'_>,
    work: &mut Work,
    place: u32,
    node: &Node,
    fuel: u32,
) -> Result<(), Memory> {
    let condition = kid(node, 0);
    evaluate(view, work, condition, fuel)?;
    for (truth, index) in [(true, 1), (false, 2)] {
        let truths = work.column(view.context.source(condition));
        let group = view.group.branch(view.context.alloc, truths, truth)?;
        let taken = View::all(view.context, &group);
        evaluate(&taken, work, kid(node, index), fuel)?;
        work.copy(&taken, kid(node, index), place)?;
    }
    Ok(())
}
