//! Bounds of values.

ghost use Rattle.std.specs.Prelude.{◌≡◌, ◌↔◌, IfOk, IsTrue};
ghost use Rattle.fc_values.specs.Types.{local_type_of};
ghost use Rattle.fc_values.specs.Values.{local_of};
ghost use Rattle.value_bounds.specs.BoundValues.{anything as anything_of, either as either_of, exactly as exactly_of};
ghost use Rattle.value_bounds.specs.BoundValues.{Both, is_known as known, value_left as left};
ghost use Rattle.value_bounds.specs.References.{any_bound_in, lent_bound_in, local_bound_in};

use fc_values::{Local, LocalTy, Memory};
use std::alloc::Global;

/// A bound of a local value: integers from a least to a greatest; truth values, whether all are true and whether one
/// may be; a bound of each component of a pair; or all values of whatever form.
#[derive(Drop)]
pub enum LocalBound {
    Between(u32, u32),
    Truths(bool, bool),
    Both(Box<LocalBound>, Box<LocalBound>),
    Unbounded,
}

/// A neighbour that a field may be over: its number, whether it is for sure, and the bound of the value there.
#[derive(Drop)]
pub struct BoundEntry {
    pub device: u32,
    pub sure: bool,
    pub bound: LocalBound,
}

/// A bound of a field: at the device itself, and at the neighbours that it may be over.
#[derive(Drop)]
pub struct FieldBound {
    pub own: LocalBound,
    pub entries: Vec<BoundEntry>,
}

/// A bound of a value: of a local one, of a field, or all values of whatever type.
#[derive(Drop)]
pub enum Bound {
    Local(LocalBound),
    Field(FieldBound),
    Any,
}

/// A bound of a value that stands elsewhere.
#[derive(Clone, Copy)]
pub enum BoundRef<'a> {
    Local(&'a LocalBound),
    Field(&'a FieldBound),
    Any,
}

/// A bound, to be looked at.
pub fn lend(bound: &Bound) -> BoundRef<'_>
    ensures { lent_bound_in result ≡ any_bound_in bound.now }
{
    match bound {
        Bound::Local(local) => BoundRef::Local(local),
        Bound::Field(field) => BoundRef::Field(field),
        Bound::Any => BoundRef::Any,
    }
}

/// The bound in which one value lies.
pub fn exactly(alloc: Global, value: &Local) -> Result<LocalBound, Memory>
    ensures { IfOk result (λ b. local_bound_in b ≡ exactly_of (local_of value.now)) }
{
    match value {
        Local::Int(n) => Ok(LocalBound::Between(*n, *n)),
        Local::Bool(b) => Ok(LocalBound::Truths(*b, *b)),
        Local::Pair(a, b) => {
            let first = Box::new(alloc, exactly(alloc, a)?)?;
            let second = Box::new(alloc, exactly(alloc, b)?)?;
            Ok(LocalBound::Both(first, second))
        }
    }
}

/// The bound in which all values of a type lie whose integers are at most the ceiling.
pub fn anything(alloc: Global, ceiling: u32, ty: &LocalTy) -> Result<LocalBound, Memory>
    ensures { IfOk result (λ b. local_bound_in b ≡ anything_of ceiling (local_type_of ty.now)) }
{
    match ty {
        LocalTy::Int => Ok(LocalBound::Between(0, ceiling)),
        LocalTy::Bool => Ok(LocalBound::Truths(false, true)),
        LocalTy::Pair(a, b) => {
            let first = Box::new(alloc, anything(alloc, ceiling, a)?)?;
            let second = Box::new(alloc, anything(alloc, ceiling, b)?)?;
            Ok(LocalBound::Both(first, second))
        }
    }
}

/// A copy of a bound. One of integers or truth values takes no memory.
#[cycle(copy)]
#[inline(always)]
pub fn copy_bound(alloc: Global, bound: &LocalBound) -> Result<LocalBound, Memory>
    ensures { IfOk result (λ b. local_bound_in b ≡ local_bound_in bound.now) }
{
    match bound {
        LocalBound::Between(low, high) => Ok(LocalBound::Between(*low, *high)),
        LocalBound::Truths(must, may) => Ok(LocalBound::Truths(*must, *may)),
        LocalBound::Both(a, b) => copy_pair(alloc, a, b),
        LocalBound::Unbounded => Ok(LocalBound::Unbounded),
    }
}

// The same of a pair, apart so that `copy_bound` may be inlined.
#[cycle(copy)]
#[inline(never)]
fn copy_pair(alloc: Global, a: &LocalBound, b: &LocalBound) -> Result<LocalBound, Memory>
    ensures { IfOk result (λ r. local_bound_in r ≡ Both (local_bound_in a.now) (local_bound_in b.now)) }
{
    let first = Box::new(alloc, copy_bound(alloc, a)?)?;
    let second = Box::new(alloc, copy_bound(alloc, b)?)?;
    Ok(LocalBound::Both(first, second))
}

/// The least bound in which all values of two bounds lie.
#[cycle(either)]
pub fn either(alloc: Global, a: &LocalBound, b: &LocalBound) -> Result<LocalBound, Memory>
    ensures { IfOk result (λ r. local_bound_in r ≡ either_of (local_bound_in a.now) (local_bound_in b.now)) }
{
    match (a, b) {
        (LocalBound::Between(a, b), LocalBound::Between(c, d)) => {
            Ok(LocalBound::Between((*a).min(*c), (*b).max(*d)))
        }
        (LocalBound::Truths(a, b), LocalBound::Truths(c, d)) => {
            Ok(LocalBound::Truths(*a && *c, *b || *d))
        }
        (LocalBound::Both(a, b), LocalBound::Both(c, d)) => either_pair(alloc, a, b, c, d),
        _ => Ok(LocalBound::Unbounded),
    }
}

// The same of two pairs, apart so that `either` may be inlined.
#[cycle(either)]
#[inline(never)]
fn either_pair(
    alloc: Global,
    a: &LocalBound,
    b: &LocalBound,
    c: &LocalBound,
    d: &LocalBound,
) -> Result<LocalBound, Memory>
    ensures { IfOk result (λ r. local_bound_in r ≡ Both (either_of (local_bound_in a.now) (local_bound_in c.now))
        (either_of (local_bound_in b.now) (local_bound_in d.now))) }
{
    let first = Box::new(alloc, either(alloc, a, c)?)?;
    let second = Box::new(alloc, either(alloc, b, d)?)?;
    Ok(LocalBound::Both(first, second))
}

/// Whether one value is left in a bound.
pub fn is_known(bound: &LocalBound) -> bool
    ensures { result ≡ known (local_bound_in bound.now) }
{
    match bound {
        LocalBound::Between(low, high) => *low == *high,
        LocalBound::Truths(must, may) => *must == *may,
        LocalBound::Both(a, b) => is_known(a) && is_known(b),
        LocalBound::Unbounded => false,
    }
}

/// The value that is left in a bound that is known; else its least one, or 0.
pub fn value_left(alloc: Global, bound: &LocalBound) -> Result<Local, Memory>
    ensures { IfOk result (λ v. local_of v ≡ left (local_bound_in bound.now)) }
{
    match bound {
        LocalBound::Between(low, _) => Ok(Local::Int(*low)),
        LocalBound::Truths(must, _) => Ok(Local::Bool(*must)),
        LocalBound::Both(a, b) => {
            let first = Box::new(alloc, value_left(alloc, a)?)?;
            let second = Box::new(alloc, value_left(alloc, b)?)?;
            Ok(Local::Pair(first, second))
        }
        LocalBound::Unbounded => Ok(Local::Int(0)),
    }
}

/// Whether two bounds are the same.
pub fn same_bound(a: &LocalBound, b: &LocalBound) -> bool
    ensures { IsTrue result ↔ local_bound_in a.now ≡ local_bound_in b.now }
{
    match (a, b) {
        (LocalBound::Between(a, b), LocalBound::Between(c, d)) => *a == *c && *b == *d,
        (LocalBound::Truths(a, b), LocalBound::Truths(c, d)) => *a == *c && *b == *d,
        (LocalBound::Both(a, b), LocalBound::Both(c, d)) => same_bound(a, c) && same_bound(b, d),
        (LocalBound::Unbounded, LocalBound::Unbounded) => true,
        _ => false,
    }
}
