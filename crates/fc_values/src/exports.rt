//! Exports as flat slots.

ghost use Rattle.std.specs.Prelude.{◌≡◌, IfOk};
ghost use Rattle.fc_values.specs.Exports.{export_of, slots_of};

use crate::Memory;
use crate::values::{Local, copy};
use std::alloc::Global;

/// What a kept place holds. Where `kept` is false, `value` means nothing.
#[derive(Drop)]
pub struct Slot {
    pub kept: bool,
    pub value: Local,
}

/// A slot for each kept place of a program, in rising order of places.
#[derive(Drop)]
pub struct Slots {
    pub list: Vec<Slot>,
}

/// What a device publishes: the value of `main`, and what its nodes keep.
#[derive(Drop)]
pub struct Export {
    pub value: Local,
    pub slots: Slots,
}

/// A copy of an export.
pub fn copy_export(alloc: Global, export: &Export) -> Result<Export, Memory>
    ensures { IfOk result (λ e. export_of e ≡ export_of export.now) }
{
    let value = copy(alloc, &export.value)?;
    let slots = copy_slots(alloc, &export.slots)?;
    Ok(Export { value, slots })
}

fn copy_slots(alloc: Global, slots: &Slots) -> Result<Slots, Memory>
    ensures { IfOk result (λ copied. slots_of copied.list.items ≡ slots_of slots.now.list.items) }
{
    let mut list = Vec::with_capacity(alloc, slots.list.len())?;
    for slot in &slots.list {
        list.push(Slot {
            kept: slot.kept,
            value: copy(alloc, &slot.value)?,
        })?;
    }
    Ok(Slots { list })
}
