//! Types: copies, comparison, width.

ghost use Rattle.std.specs.Prelude.{◌≡◌, IfOk, min};
ghost use Rattle.fc_values.specs.Types.{leaves, local_type_of, type_of};
ghost use Rattle.fc_types.specs.Judging.{same_local, same_type};

use fc_values::{LocalTy, Memory, Ty};
use std::alloc::Global;

/// A copy of a type of local values.
pub fn copy_local_type(alloc: Global, ty: &LocalTy) -> Result<LocalTy, Memory>
    ensures { IfOk result (λ t. local_type_of t ≡ local_type_of ty.now) }
{
    match ty {
        LocalTy::Int => Ok(LocalTy::Int),
        LocalTy::Bool => Ok(LocalTy::Bool),
        LocalTy::Pair(first, second) => {
            let first = Box::new(alloc, copy_local_type(alloc, first)?)?;
            let second = Box::new(alloc, copy_local_type(alloc, second)?)?;
            Ok(LocalTy::Pair(first, second))
        }
    }
}

/// A copy of a type.
pub fn copy_type(alloc: Global, ty: &Ty) -> Result<Ty, Memory>
    ensures { IfOk result (λ t. type_of t ≡ type_of ty.now) }
{
    match ty {
        Ty::Local(ty) => Ok(Ty::Local(copy_local_type(alloc, ty)?)),
        Ty::Field(ty) => Ok(Ty::Field(copy_local_type(alloc, ty)?)),
    }
}

/// Whether two types of local values are the same.
pub fn same_local_type(a: &LocalTy, b: &LocalTy) -> bool
    ensures { result ≡ same_local (local_type_of a.now) (local_type_of b.now) }
{
    match (a, b) {
        (LocalTy::Int, LocalTy::Int) => true,
        (LocalTy::Bool, LocalTy::Bool) => true,
        (LocalTy::Pair(a, b), LocalTy::Pair(c, d)) => same_local_type(a, c)
            && same_local_type(b, d),
        _ => false,
    }
}

/// Whether two types are the same.
pub fn same_types(a: &Ty, b: &Ty) -> bool
    ensures { result ≡ same_type (type_of a.now) (type_of b.now) }
{
    match (a, b) {
        (Ty::Local(a), Ty::Local(b)) => same_local_type(a, b),
        (Ty::Field(a), Ty::Field(b)) => same_local_type(a, b),
        _ => false,
    }
}

/// The number of a type's leaves, or 9 where it is greater.
pub fn leaves_to_nine(ty: &LocalTy) -> u32
    ensures { result ≡ min 9 (leaves (local_type_of ty.now)) }
{
    match ty {
        LocalTy::Int => 1,
        LocalTy::Bool => 1,
        LocalTy::Pair(first, second) => 9.min(leaves_to_nine(first) + leaves_to_nine(second)),
    }
}
