//! A `rep` or `share` whose variable occurs in its body, solved device by device: the unsettled device with the least
//! value is settled next, or devices go by rising potential.

use crate::columns::at_device;
use crate::groups::LinkEnd;
use crate::nodes::put;
use crate::work::{Context, View, Work, kid};
use fc_nodes::{Node, Op};
use fc_values::{Builtin, Memory, Ty};
use std::cmp::Ordering;
use std::collections::BinaryHeap;

/// How a `rep` or `share` is solved: by rising potential, the variable of a `let`; or smallest first, from the arguments
/// of a `minHoodLoc`. The plan has the places in the body at which the variable occurs, each behind its kids, and the
/// parts are the greatest terms without it.
#[derive(Drop)]
pub struct Order {
    by: By,
    pub plan: Vec<u32>,
    pub parts: Vec<u32>,
}

#[derive(Clone, Copy, Debug, PartialEq, Eq)]
enum By {
    Potential(u32),
    Hood(u32, u32),
}

/// The order of a `rep` or `share`. There is none where its variable doesn't occur, or occurs in another form.
pub fn order_of(context: &Context<'_>, place: u32, node: &Node) -> Result<Option<Order>, Memory> {
    let body = kid(node, 1);
    let Some(by) = by_of(context, place, body) else {
        return Ok(None);
    };
    let mut order = Order {
        by,
        plan: Vec::new(context.alloc),
        parts: Vec::new(context.alloc),
    };
    let plain = add(context, place, body, context.program.size(), &mut order)?;
    if plain && !order.plan.is_empty() {
        Ok(Some(order))
    } else {
        Ok(None)
    }
}

fn by_of(context: &Context<'_>, place: u32, body: u32) -> Option<By> {
    for (evolving, binder) in context.potentials {
        if *evolving == place {
            return Some(By::Potential(kid(context.node(*binder)?, 0)));
        }
    }
    let node = context.node(body)?;
    match &node.op {
        Op::Apply(Builtin::Rise) => hood_of(context.node(kid(node, 0))?),
        _ => hood_of(node),
    }
}

fn hood_of(node: &Node) -> Option<By> {
    match &node.op {
        Op::Apply(Builtin::MinHoodLoc) => Some(By::Hood(kid(node, 0), kid(node, 1))),
        _ => None,
    }
}

// Adds the places of a term to an order, and says whether the variable stands under builtins and `nbr` alone.
fn add(
    context: &Context<'_>,
    binder: u32,
    place: u32,
    fuel: u32,
    order: &mut Order,
) -> Result<bool, Memory> {
    if !context.occurs(binder, place) {
        order.parts.push(place)?;
        return Ok(true);
    }
    let Some(node) = context.node(place) else {
        return Ok(false);
    };
    if fuel == 0 {
        return Ok(false);
    }
    for kid in &node.kids {
        if !add(context, binder, *kid, fuel - 1, order)? {
            return Ok(false);
        }
    }
    order.plan.push(place)?;
    match &node.op {
        Op::Apply(_) | Op::Nbr | Op::Var(_) => Ok(true),
        _ => Ok(false),
    }
}

/// Puts the values of a `rep` or `share` at all of a group. The parts of its order have their columns.
pub fn solve(
    view: &View<'_>,
    work: &mut Work,
    place: u32,
    node: &Node,
    order: &Order,
) -> Result<(), Memory> {
    let zeros = work.open(view.context, place, node)?;
    work.keep(place, zeros);
    match order.by {
        By::Potential(term) => rising_order(view, work, place, kid(node, 1), term, &order.plan),
        By::Hood(field, local) => {
            work.copy(view, local, place)?;
            let fields = fields(view.context, &order.plan)?;
            smallest_first(view, work, place, field, &fields)
        }
    }
}

// Those places of a list at which fields stand.
fn fields(context: &Context<'_>, plan: &[u32]) -> Result<Vec<u32>, Memory> {
    let mut list = Vec::with_capacity(context.alloc, plan.len())?;
    for place in plan {
        if let Some(node) = context.node(*place) {
            if let Ty::Field(_) = &node.ty {
                list.push(*place)?;
            }
        }
    }
    Ok(list)
}

// Values by rising potential: those of the body, at one device after another.
fn rising_order(
    view: &View<'_>,
    work: &mut Work,
    place: u32,
    body: u32,
    term: u32,
    plan: &[u32],
) -> Result<(), Memory> {
    let context = view.context;
    let mut heap = BinaryHeap::new(context.alloc);
    let potential = work.column(context.source(term));
    for device in view.devices {
        heap.push((u32::MAX - potential.number(at_device(*device)), *device))?;
    }
    for _ in 0..view.devices.len() {
        if let Some((_, device)) = heap.pop() {
            solve_at(view, work, place, body, device, plan)?;
        }
    }
    Ok(())
}

fn solve_at(
    view: &View<'_>,
    work: &mut Work,
    place: u32,
    body: u32,
    device: u32,
    plan: &[u32],
) -> Result<(), Memory> {
    let devices = [device];
    let one = View {
        context: view.context,
        group: view.group,
        devices: &devices,
        link_ends: view.group.heard(device),
    };
    replay(&one, work, plan)?;
    work.copy(&one, body, place)
}

// Values that begin with the local argument of a `minHoodLoc`.
fn smallest_first(
    view: &View<'_>,
    work: &mut Work,
    place: u32,
    field: u32,
    plan: &[u32],
) -> Result<(), Memory> {
    let context = view.context;
    let mut heap = BinaryHeap::new(context.alloc);
    for device in view.devices {
        let lead = work.column(place).number(at_device(*device));
        heap.push((u32::MAX - lead, *device))?;
    }
    let mut settled = vec![in context.alloc; false; context.devices]?;
    for _ in 0..view.devices.len().saturating_add(view.link_ends.len()) {
        if let Some((_, device)) = heap.pop() {
            if settle(&mut settled, device) {
                let link_ends = open(view, device, &settled)?;
                replay_there(view, work, &link_ends, plan)?;
                lower(view, work, place, field, &link_ends, &mut heap)?;
            }
        }
    }
    Ok(())
}

// Marks a device, and says whether it was not marked.
fn settle(settled: &mut [bool], device: u32) -> bool {
    match settled.get_mut(device as usize) {
        Some(mark) => {
            let new = !*mark;
            *mark = true;
            new
        }
        None => false,
    }
}

// The links by which devices that aren't settled hear a device.
fn open(view: &View<'_>, device: u32, settled: &[bool]) -> Result<Vec<LinkEnd>, Memory> {
    let mut link_ends = Vec::new(view.context.alloc);
    for end in view.group.heard(device) {
        if settled.get(end.near as usize) == Some(&false) {
            if let Some(back) = view.group.back(end) {
                link_ends.push(back)?;
            }
        }
    }
    Ok(link_ends)
}

// Puts what is heard at links where it is less than the value.
fn lower(
    view: &View<'_>,
    work: &mut Work,
    place: u32,
    field: u32,
    link_ends: &[LinkEnd],
    heap: &mut BinaryHeap<(u32, u32)>,
) -> Result<(), Memory> {
    let Some(mut own) = work.take(place) else {
        return Ok(());
    };
    let heard = work.column(view.context.source(field));
    for end in link_ends {
        if heard.order(end.location, &own, end.location) == Ordering::Less {
            own.carry(end.location, heard, end.location);
            heap.push((u32::MAX - own.number(end.location), end.location.device))?;
        }
    }
    work.keep(place, own);
    Ok(())
}

// Puts the values of the nodes at these places once more, at links.
fn replay_there(
    view: &View<'_>,
    work: &mut Work,
    link_ends: &[LinkEnd],
    plan: &[u32],
) -> Result<(), Memory> {
    let there = View {
        context: view.context,
        group: view.group,
        devices: &[],
        link_ends,
    };
    replay(&there, work, plan)
}

// Puts the values of the nodes at these places once more.
fn replay(view: &View<'_>, work: &mut Work, plan: &[u32]) -> Result<(), Memory> {
    for place in plan {
        if let Some(node) = view.context.node(*place) {
            put(view, work, *place, node)?;
        }
    }
    Ok(())
}
