//! Local values, fields, and values of any type.

ghost use Rattle.std.specs.Prelude.{◌≡◌, ◌↔◌, IsTrue, IfOk, map};
ghost use Rattle.fc_values.specs.Types.{local_type_of};
ghost use Rattle.fc_values.specs.Values.{local_of, form_of, Fits, compare_values, SameForm};

use crate::Memory;
use crate::types::LocalTy;
use std::alloc::Global;
use std::cmp::Ordering;

/// A local value.
#[derive(Drop)]
pub enum Local {
    Int(u32),
    Bool(bool),
    Pair(Box<Local>, Box<Local>),
}

/// A field: a value for each of some devices, whose numbers rise.
#[derive(Drop)]
pub struct FieldVal {
    pub entries: Vec<(u32, Local)>,
}

/// A local value or a field.
#[derive(Drop)]
pub enum Value {
    Local(Local),
    Field(FieldVal),
}

/// Whether a value has a type, and each integer in it is at most the ceiling.
pub fn fits(ty: &LocalTy, value: &Local, ceiling: u32) -> bool
    ensures { IsTrue result ↔ Fits ceiling (local_type_of ty.now) (local_of value.now) }
{
    match (ty, value) {
        (LocalTy::Int, Local::Int(n)) => *n <= ceiling,
        (LocalTy::Bool, Local::Bool(_)) => true,
        (LocalTy::Pair(a, b), Local::Pair(x, y)) => fits(a, x, ceiling) && fits(b, y, ceiling),
        _ => false,
    }
}

/// The order of values of one type. Values of different forms count as equal.
pub fn compare(a: &Local, b: &Local) -> Ordering
    ensures { result ≡ compare_values (local_of a.now) (local_of b.now) }
{
    match (a, b) {
        (Local::Int(x), Local::Int(y)) => x.cmp(y),
        (Local::Bool(x), Local::Bool(y)) => x.cmp(y),
        (Local::Pair(x, y), Local::Pair(z, w)) => match compare(x, z) {
            Ordering::Equal => compare(y, w),
            other => other,
        },
        _ => Ordering::Equal,
    }
}

/// A copy of a value. An integer or a truth value takes no memory.
pub fn copy(alloc: Global, value: &Local) -> Result<Local, Memory>
    ensures { IfOk result (λ v. local_of v ≡ local_of value.now) }
{
    match value {
        Local::Int(n) => Ok(Local::Int(*n)),
        Local::Bool(b) => Ok(Local::Bool(*b)),
        Local::Pair(_, _) => copy_deep(alloc, value),
    }
}

// The same by recursion, so that `copy` itself may be inlined.
fn copy_deep(alloc: Global, value: &Local) -> Result<Local, Memory>
    ensures { IfOk result (λ v. local_of v ≡ local_of value.now) }
{
    match value {
        Local::Int(n) => Ok(Local::Int(*n)),
        Local::Bool(b) => Ok(Local::Bool(*b)),
        Local::Pair(a, b) => {
            let first = Box::new(alloc, copy_deep(alloc, a)?)?;
            let second = Box::new(alloc, copy_deep(alloc, b)?)?;
            Ok(Local::Pair(first, second))
        }
    }
}

/// Copies of values.
pub fn copy_locals(alloc: Global, values: &[Local]) -> Result<Vec<Local>, Memory>
    ensures { IfOk result (λ v. map local_of v.items ≡ map local_of values.now) }
{
    let mut copies = Vec::with_capacity(alloc, values.len())?;
    for value in values {
        copies.push(copy(alloc, value)?)?;
    }
    Ok(copies)
}

/// A default value of a type: 0, false, or a pair of defaults.
pub fn blank_of(alloc: Global, ty: &LocalTy) -> Result<Local, Memory>
    ensures { IfOk result (λ v. form_of (local_of v) ≡ local_type_of ty.now) }
{
    match ty {
        LocalTy::Int => Ok(Local::Int(0)),
        LocalTy::Bool => Ok(Local::Bool(false)),
        LocalTy::Pair(a, b) => {
            let first = Box::new(alloc, blank_of(alloc, a)?)?;
            let second = Box::new(alloc, blank_of(alloc, b)?)?;
            Ok(Local::Pair(first, second))
        }
    }
}

/// Writes a value over another of the same form. It takes no memory.
pub fn overwrite(target: &mut Local, source: &Local)
    requires { SameForm (local_of target.old) (local_of source.now) }
    ensures { local_of target.new ≡ local_of source.now }
{
    match (target, source) {
        (Local::Int(x), Local::Int(y)) => *x = *y,
        (Local::Bool(x), Local::Bool(y)) => *x = *y,
        (Local::Pair(first, second), Local::Pair(a, b)) => {
            overwrite_deep(first, a);
            overwrite_deep(second, b);
        }
        _ => unreachable!(),
    }
}

// The same by recursion, so that `overwrite` itself may be inlined.
fn overwrite_deep(target: &mut Local, source: &Local)
    requires { SameForm (local_of target.old) (local_of source.now) }
    ensures { local_of target.new ≡ local_of source.now }
{
    match (target, source) {
        (Local::Int(x), Local::Int(y)) => *x = *y,
        (Local::Bool(x), Local::Bool(y)) => *x = *y,
        (Local::Pair(x, y), Local::Pair(z, w)) => {
            overwrite_deep(x, z);
            overwrite_deep(y, w);
        }
        _ => unreachable!(),
    }
}
