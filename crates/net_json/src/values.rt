//! What JSON values say.

ghost use Rattle.std.specs.Prelude.{◌≡◌, IfOk, option_map, option_and_then};
ghost use Rattle.serde_json.specs.Find.{as_object};
ghost use Rattle.serde_json.specs.View.{view, items_view};
ghost use Rattle.fc_values.specs.Values.{local_of};
ghost use Rattle.net_json.specs.Reading.{whole, small, value_of, integer_value, size_of, has_size, two_members};
ghost use Rattle.net_json.specs.Reading.{three_members, four_members};
ghost use Rattle.serde_json.specs.Data.{array};

use fc_values::{GREATEST, Local, Memory};
use serde_json::Value;
use std::alloc::Global;

/// A whole number.
pub(crate) fn whole(value: &Value) -> Option<u64>
    ensures { result ≡ whole (view value.now) }
{
    value.as_u64()
}

/// A whole number of at most 1,000,000.
pub(crate) fn small(value: &Value) -> Option<u32>
    ensures { result ≡ small (view value.now) }
{
    let n = whole(value)?;
    if n <= u64::from(GREATEST) {
        Some(n as u32)
    } else {
        None
    }
}

// A whole number as a local value. One past 32 bits fits no type, and the greatest of 32 bits stands for it.
fn integer(n: u64) -> Local
    ensures { local_of result ≡ integer_value n }
{
    Local::Int(n.min(4_294_967_295) as u32)
}

/// A local value, if this is one.
#[cycle(local)]
#[inline(always)]
pub(crate) fn local(alloc: Global, value: &Value) -> Result<Option<Local>, Memory>
    ensures { IfOk result (λ v. option_map local_of v ≡ value_of (view value.now)) }
{
    match value {
        Value::Bool(b) => Ok(Some(Local::Bool(*b))),
        Value::Number(n) => Ok(n.as_u64().map(integer)),
        Value::Array(items) => pair(alloc, items),
        _ => Ok(None),
    }
}

// The pair that an array of two values is, apart so that `local` may be inlined.
#[cycle(local)]
#[inline(never)]
fn pair(alloc: Global, items: &[Value]) -> Result<Option<Local>, Memory>
    ensures { IfOk result (λ v. option_map local_of v ≡ value_of (array (items_view items.now))) }
{
    if items.len() != 2 {
        return Ok(None);
    }
    let Some(a) = local(alloc, &items[0])? else {
        return Ok(None);
    };
    let Some(b) = local(alloc, &items[1])? else {
        return Ok(None);
    };
    Ok(Some(Local::Pair(Box::new(alloc, a)?, Box::new(alloc, b)?)))
}

/// Whether a value is an object with so many members.
pub(crate) fn has_size(value: &Value, count: usize) -> bool
    ensures { result ≡ has_size count (view value.now) }
{
    match value.as_object() {
        Some(members) => members.len() == count,
        None => false,
    }
}

/// The members of two names, of an object that has exactly these.
pub(crate) fn two_members<'v>(
    value: &'v Value,
    first: &str,
    second: &str,
) -> Option<(&'v Value, &'v Value)>
    ensures { option_map (λ m. (view m.0.now, view m.1.now)) result ≡ two_members first.now second.now
        (view value.now) }
{
    if !has_size(value, 2) {
        return None;
    }
    let a = value.get(first)?;
    let b = value.get(second)?;
    Some((a, b))
}

/// The members of three names, of an object that has exactly these.
pub(crate) fn three_members<'v>(
    value: &'v Value,
    first: &str,
    second: &str,
    third: &str,
) -> Option<(&'v Value, (&'v Value, &'v Value))>
    ensures { option_map (λ m. (view m.0.now, (view m.1.0.now, view m.1.1.now))) result
        ≡ three_members first.now second.now third.now (view value.now) }
{
    if !has_size(value, 3) {
        return None;
    }
    let a = value.get(first)?;
    let b = value.get(second)?;
    let c = value.get(third)?;
    Some((a, (b, c)))
}

/// The members of four names, of an object that has exactly these.
pub(crate) fn four_members<'v>(
    value: &'v Value,
    first: &str,
    second: &str,
    third: &str,
    fourth: &str,
) -> Option<((&'v Value, &'v Value), (&'v Value, &'v Value))>
    ensures { option_map (λ m. ((view m.0.0.now, view m.0.1.now), (view m.1.0.now, view m.1.1.now))) result
        ≡ four_members first.now second.now third.now fourth.now (view value.now) }
{
    if !has_size(value, 4) {
        return None;
    }
    let a = value.get(first)?;
    let b = value.get(second)?;
    let c = value.get(third)?;
    let d = value.get(fourth)?;
    Some(((a, b), (c, d)))
}
