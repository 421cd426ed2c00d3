//! The columns of nodes, from those of their kids.

use crate::builtins::Application;
use crate::columns::{Column, Spread, at_device};
use crate::work::{Context, View, Work, kid};
use fc_nodes::{Node, Op};
use fc_values::{Builtin, Local, Memory};
use topology::Device;

/// Puts the values of a node at the devices and links of a view. Those of a `rep`, `share` or `if` aren't put.
pub fn put(view: &View<'_>, work: &mut Work, place: u32, node: &Node) -> Result<(), Memory> {
    let context = view.context;
    let column = match &node.op {
        Op::Lit(value) => literal(context, value)?,
        Op::Sense(input) => sensed(context, *input)?,
        Op::Uid => uids(context)?,
        Op::NbrLink => weights(view)?,
        Op::Var(binder) => {
            if context.source(place) != place {
                return Ok(());
            }
            heard(view, work, place, node, *binder)?
        }
        Op::Nbr => heard(view, work, place, node, context.source(kid(node, 0)))?,
        Op::Apply(builtin) => applied(view, work, place, node, *builtin)?,
        Op::Let => named(context, work, kid(node, 1))?,
        Op::Rep | Op::Share | Op::If => return Ok(()),
    };
    work.keep(place, column);
    Ok(())
}

fn literal(context: &Context<'_>, value: &Local) -> Result<Column, Memory> {
    let mut cells = Vec::new(context.alloc);
    flatten(value, &mut cells)?;
    Ok(Column {
        spread: Spread::Everywhere,
        width: cells.len(),
        cells,
    })
}

// Adds the leaves of a value.
fn flatten(value: &Local, cells: &mut Vec<u32>) -> Result<(), Memory> {
    match value {
        Local::Int(n) => cells.push(*n)?,
        Local::Bool(b) => cells.push(if *b { 1 } else { 0 })?,
        Local::Pair(a, b) => {
            flatten(a, cells)?;
            flatten(b, cells)?;
        }
    }
    Ok(())
}

fn sensed(context: &Context<'_>, input: u32) -> Result<Column, Memory> {
    let mut cells = Vec::with_capacity(context.alloc, context.devices)?;
    for device in context.net.devices() {
        cells.push(input_of(device, input))?;
    }
    Ok(Column::numbers(cells))
}

fn input_of(device: &Device, input: u32) -> u32 {
    match device.inputs.get(input as usize) {
        Some(Local::Int(n)) => *n,
        Some(Local::Bool(true)) => 1,
        _ => 0,
    }
}

fn uids(context: &Context<'_>) -> Result<Column, Memory> {
    let ceiling = context.program.declared().ceiling;
    let mut cells = Vec::with_capacity(context.alloc, context.devices)?;
    for device in context.net.devices() {
        cells.push(device.id.min(ceiling))?;
    }
    Ok(Column::numbers(cells))
}

fn weights(view: &View<'_>) -> Result<Column, Memory> {
    let context = view.context;
    let mut column = Column::zeros(context.alloc, Spread::Links, 1, context.links)?;
    for end in view.link_ends {
        column.put(end.location, end.weight);
    }
    Ok(column)
}

// What is heard of the values at a place.
fn heard(
    view: &View<'_>,
    work: &mut Work,
    place: u32,
    node: &Node,
    from: u32,
) -> Result<Column, Memory> {
    let mut own = work.open(view.context, place, node)?;
    let column = work.column(from);
    for end in view.link_ends {
        own.carry(end.location, column, at_device(end.near));
    }
    Ok(own)
}

fn applied(
    view: &View<'_>,
    work: &mut Work,
    place: u32,
    node: &Node,
    builtin: Builtin,
) -> Result<Column, Memory> {
    let context = view.context;
    let mut own = work.open(context, place, node)?;
    let application = Application {
        builtin,
        ceiling: context.program.declared().ceiling,
        group: view.group,
        first: work.column(context.source(kid(node, 0))),
        second: work.column(context.source(kid(node, 1))),
        third: work.column(context.source(kid(node, 2))),
    };
    if own.spread == Spread::Links {
        for end in view.link_ends {
            application.put(end.location, &mut own);
        }
    } else {
        for device in view.devices {
            application.put(at_device(*device), &mut own);
        }
    }
    Ok(own)
}

// The column of a `let`'s body.
fn named(context: &Context<'_>, work: &mut Work, body: u32) -> Result<Column, Memory> {
    match work.take(body) {
        Some(column) => Ok(column),
        None => work.column(context.source(body)).copy(context.alloc),
    }
}
