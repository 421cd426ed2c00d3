//! The values of variables, added behind the words.

ghost use Rattle.std.specs.Prelude.{◌≡◌, ◌++◌, ◌+◌, ◌*◌, ◌≤◌, IfOk, IsSome, OnOk, drop, length, slice_index_or, take};
ghost use Rattle.fc_values.specs.Fields.{is_in, restricted};
ghost use Rattle.fc_values.specs.Types.{TypeField, leaves, local_type_of};
ghost use Rattle.fc_nodes.specs.Typing.{type_at};
ghost use Rattle.alignment.specs.Environments.{near_numbers};
ghost use Rattle.alignment.specs.References.{nears_of, numbers_in};
ghost use Rattle.scope_columns.specs.Scopes.{AreAligned, IsAligned, StandBelow, VariableAdded, devices_in, types_in};
ghost use Rattle.scope_columns.specs.Words.{Added, kept_rows, row_of, stays, value_in};

use crate::scopes::{Binder, Sight, lookup, own_row};
use alignment::{Env, NearRef};
use fc_values::{MOST_LINKS, Memory};
use smallvec::SmallVec;
use std::alloc::Global;
use value_columns::{choose_rows, width};

/// Adds the value of a variable, restricted to the device and the aligned neighbours.
#[inline(never)]
pub fn push_variable(
    alloc: Global,
    words: &mut Vec<u32>,
    sight: &Sight<'_, '_>,
    binder: u32,
    device: u32,
) -> Result<(), Memory>
    requires bound { IsSome (type_at binder (types_in sight.now.vars.now)) }
    requires below { StandBelow device (length words.old.items) sight.now.vars.now }
    requires aligned { AreAligned device (numbers_in sight.now.env.now) sight.now.vars.now }
    ensures { OnOk result (VariableAdded device binder sight.now words.old.items words.new.items) }
{
    let bound = lookup(sight.vars, binder);
    if !bound.is_field {
        push_words(words, bound.at, width(bound.ty))?;
        return Ok(());
    }
    push_field(alloc, words, &bound, sight, device)?;
    Ok(())
}

// Adds some of the words once more.
fn push_words(words: &mut Vec<u32>, at: usize, many: usize) -> Result<(), Memory>
    requires { at + many ≤ length words.old.items }
    ensures { IfOk result (λ _. words.new.items ≡ words.old.items ++ take many (drop at words.old.items)) }
{
    words.reserve(many)?;
    for i in at..at + many {
        words.push(words[i])?;
    }
    Ok(())
}

// Adds the field of a binder, restricted to the device and the aligned neighbours.
fn push_field(
    alloc: Global,
    words: &mut Vec<u32>,
    bound: &Binder<'_, '_>,
    sight: &Sight<'_, '_>,
    device: u32,
) -> Result<(), Memory>
    requires within { let rows = length (devices_in device bound.now.env.now) in
        bound.now.at + rows * leaves (local_type_of bound.now.ty.now) ≤ length words.old.items }
    requires aligned { IsAligned device (numbers_in sight.now.env.now) (TypeField (local_type_of bound.now.ty.now))
        (devices_in device bound.now.env.now) }
    ensures added { OnOk result (Added (TypeField (local_type_of bound.now.ty.now))
        (devices_in device sight.now.env.now) words.old.items words.new.items) }
    ensures value { let t = TypeField (local_type_of bound.now.ty.now) in IfOk result (λ _.
        value_in words.new.items t (devices_in device sight.now.env.now) (length words.old.items)
        ≡ restricted device (numbers_in sight.now.env.now)
        (value_in words.old.items t (devices_in device bound.now.env.now) bound.now.at)) }
{
    let rows = bound.env.near.len() + 1;
    if rows == sight.env.near.len() + 1 {
        push_words(words, bound.at, rows * width(bound.ty))?;
        return Ok(());
    }
    let kept = aligned_rows(alloc, bound.env, sight.env, device)?;
    choose_rows(words, bound.ty, rows, bound.at, kept.as_slice())?;
    Ok(())
}

// The rows of a field that belong to the device and the neighbours that are still aligned.
fn aligned_rows(
    alloc: Global,
    env: &Env<'_>,
    inner: &Env<'_>,
    device: u32,
) -> Result<SmallVec<u32, MOST_LINKS>, Memory>
    ensures { IfOk result (λ rows. rows.items
        ≡ kept_rows (stays device (numbers_in inner.now)) 0 (devices_in device env.now)) }
{
    let own = own_row(env, device);
    let mut rows = SmallVec::new(alloc);
    for row in 0..env.near.len() + 1 {
        let other = device_in_row(env, own, device, row);
        if is_aligned(inner, device, other) {
            rows.push(row as u32)?;
        }
    }
    Ok(rows)
}

// The device of a row.
fn device_in_row(env: &Env<'_>, own: usize, device: u32, row: usize) -> u32
    requires own { own ≡ row_of device (numbers_in env.now) }
    requires within { row ≤ length env.now.near.items }
    ensures { result ≡ slice_index_or (devices_in device env.now) row 0 }
{
    let near = env.near.as_slice();
    if row < own {
        near[row].device
    } else if row == own {
        device
    } else {
        near[row - 1].device
    }
}

// Whether a device is the given one, or one of its aligned neighbours.
fn is_aligned(env: &Env<'_>, device: u32, other: u32) -> bool
    ensures { result ≡ stays device (numbers_in env.now) other }
{
    other == device || is_near(&env.near, other)
}

// Whether a device is among the neighbours.
fn is_near(near: &[NearRef<'_>], device: u32) -> bool
    ensures { result ≡ is_in device (near_numbers (nears_of near.now)) }
{
    for n in near {
        if n.device == device {
            return true;
        }
    }
    false
}
