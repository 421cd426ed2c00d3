//! Exports from columns.

use crate::columns::{Column, at_device};
use crate::work::{Context, View, Work};
use fc_values::{Export, Local, LocalTy, Memory, Slot, Slots, copy, inner};
use std::alloc::Global;

/// For each device a list of slots of which none is kept.
pub fn blank(context: &Context<'_>, blanks: &[Local]) -> Result<Vec<Vec<Slot>>, Memory> {
    let mut all = Vec::with_capacity(context.alloc, context.devices)?;
    for _ in 0..context.devices {
        let mut list = Vec::with_capacity(context.alloc, blanks.len())?;
        for blank in blanks {
            let value = copy(context.alloc, blank)?;
            list.push(Slot { kept: false, value })?;
        }
        all.push(list)?;
    }
    Ok(all)
}

/// Keeps the values at a place in a slot of each device of a view.
pub fn keep(
    view: &View<'_>,
    work: &mut Work,
    slot: u32,
    ty: &LocalTy,
    place: u32,
) -> Result<(), Memory> {
    for device in view.devices {
        let column = work.column(place);
        let mut at = column.at(at_device(*device));
        let value = local_at(view.context.alloc, ty, column, &mut at)?;
        if let Some(list) = work.slots.get_mut(*device as usize) {
            if let Some(cell) = list.get_mut(slot as usize) {
                *cell = Slot { kept: true, value };
            }
        }
    }
    Ok(())
}

// A value of a type, whose leaves begin at a place that moves behind them.
fn local_at(alloc: Global, ty: &LocalTy, column: &Column, at: &mut usize) -> Result<Local, Memory> {
    match ty {
        LocalTy::Int => Ok(Local::Int(next(column, at))),
        LocalTy::Bool => Ok(Local::Bool(next(column, at) != 0)),
        LocalTy::Pair(a, b) => {
            let first = Box::new(alloc, local_at(alloc, a, column, at)?)?;
            let second = Box::new(alloc, local_at(alloc, b, column, at)?)?;
            Ok(Local::Pair(first, second))
        }
    }
}

fn next(column: &Column, at: &mut usize) -> u32 {
    let number = column.leaf(*at);
    *at = at.saturating_add(1);
    number
}

/// The exports with the slots that were kept, and the values of `main`.
pub fn exports(context: &Context<'_>, work: Work) -> Result<Vec<Option<Export>>, Memory> {
    let mut all = Vec::with_capacity(context.alloc, context.devices)?;
    let Some(main) = context.node(0) else {
        return Ok(all);
    };
    let Work { columns, slots, .. } = work;
    let Some(Some(column)) = columns.first() else {
        return Ok(all);
    };
    let mut place = 0u32;
    for list in slots {
        let mut at = column.at(at_device(place));
        let value = local_at(context.alloc, inner(&main.ty), column, &mut at)?;
        let slots = Slots { list };
        all.push(Some(Export { value, slots }))?;
        place = place.saturating_add(1);
    }
    Ok(all)
}
