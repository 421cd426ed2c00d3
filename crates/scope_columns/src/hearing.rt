//! What the aligned exports have in a slot, and fields of it, added behind the words.

ghost use Rattle.std.specs.Prelude.{◌≡◌, ◌++◌, ◌<◌, ◌≤◌, IfOk, OnOk, length, map};
ghost use Rattle.fc_values.specs.Exports.{slot_at, slots_of};
ghost use Rattle.fc_values.specs.Fields.{ValueField};
ghost use Rattle.fc_values.specs.Types.{TypeField, leaves, local_type_of};
ghost use Rattle.fc_values.specs.Values.{local_of};
ghost use Rattle.alignment.specs.Hearing.{field_with, own_slot_or, slot_entries};
ghost use Rattle.alignment.specs.Slots.{NearHave, OwnHas};
ghost use Rattle.alignment.specs.References.{flat_of, nears_of, numbers_in};
ghost use Rattle.scope_columns.specs.Scopes.{devices_in};
ghost use Rattle.scope_columns.specs.Words.{Added, AllForm, leaf_word, row_of, slot_column, value_in, values_in};

use crate::scopes::Sight;
use alignment::{NearRef, slot_value};
use fc_values::{Local, LocalTy, Memory, Slot};
use value_columns::{leaf_at, width};

/// Adds the field of what the neighbours have in a slot, and of the device's own value.
pub fn push_heard(
    words: &mut Vec<u32>,
    ty: &LocalTy,
    sight: &Sight<'_, '_>,
    slot: u32,
    device: u32,
    own: &Local,
) -> Result<(), Memory>
    requires width { leaves (local_type_of ty.now) ≤ usize.MAX }
    requires near { NearHave slot (flat_of sight.now.env.now).near }
    requires row { sight.now.own ≡ row_of device (numbers_in sight.now.env.now) }
    requires forms { AllForm (local_type_of ty.now)
        (field_with slot device (local_of own.now) (flat_of sight.now.env.now)) }
    ensures added { OnOk result (Added (TypeField (local_type_of ty.now)) (devices_in device sight.now.env.now)
        words.old.items words.new.items) }
    ensures value { IfOk result (λ _. value_in words.new.items (TypeField (local_type_of ty.now))
        (devices_in device sight.now.env.now) (length words.old.items)
        ≡ ValueField (field_with slot device (local_of own.now) (flat_of sight.now.env.now))) }
{
    for leaf in 0..width(ty) {
        push_column(words, ty, sight, slot, device, own, leaf)?;
    }
    Ok(())
}

// Adds a leaf of each of these values.
fn push_column(
    words: &mut Vec<u32>,
    ty: &LocalTy,
    sight: &Sight<'_, '_>,
    slot: u32,
    device: u32,
    own: &Local,
    leaf: usize,
) -> Result<(), Memory>
    requires width { leaves (local_type_of ty.now) ≤ usize.MAX }
    requires leaf { leaf < leaves (local_type_of ty.now) }
    requires near { NearHave slot (flat_of sight.now.env.now).near }
    requires row { sight.now.own ≡ row_of device (numbers_in sight.now.env.now) }
    requires forms { AllForm (local_type_of ty.now)
        (field_with slot device (local_of own.now) (flat_of sight.now.env.now)) }
    ensures { IfOk result (λ _. words.new.items ≡ words.old.items
        ++ map (leaf_word leaf) (values_in (field_with slot device (local_of own.now) (flat_of sight.now.env.now)))) }
{
    let (before, behind) = sight.env.near.as_slice().split_at(sight.own);
    push_slots(words, ty, before, slot, leaf)?;
    words.push(leaf_at(own, leaf))?;
    push_slots(words, ty, behind, slot, leaf)?;
    Ok(())
}

// Adds a leaf of what each of some neighbours has in a slot.
fn push_slots(
    words: &mut Vec<u32>,
    ty: &LocalTy,
    near: &[NearRef<'_>],
    slot: u32,
    leaf: usize,
) -> Result<(), Memory>
    requires width { leaves (local_type_of ty.now) ≤ usize.MAX }
    requires leaf { leaf < leaves (local_type_of ty.now) }
    requires near { NearHave slot (nears_of near.now) }
    requires forms { AllForm (local_type_of ty.now) (slot_entries slot (nears_of near.now)) }
    ensures { IfOk result (λ _. words.new.items ≡ words.old.items ++ slot_column leaf slot (nears_of near.now)) }
{
    for n in near {
        words.push(leaf_at(slot_value(n.slots, slot), leaf))?;
    }
    Ok(())
}
