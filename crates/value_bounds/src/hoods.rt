//! What hoods make of a bound of a field: folds over the neighbours that it may be over.

ghost use Rattle.std.specs.Prelude.{◌≡◌, IfOk, if◌then◌else◌};
ghost use Rattle.value_bounds.specs.BoundValues.{Both, either as either_of};
ghost use Rattle.value_bounds.specs.BoundBuiltins.{all_bound, any_bound, cut, greatest_bound, hood_bound, least_bound};
ghost use Rattle.value_bounds.specs.BoundBuiltins.{one_greatest, one_least, sum_bound};
ghost use Rattle.value_bounds.specs.References.{entries_in, lent_bounds_in, local_bound_in};

use crate::bounds::{BoundEntry, BoundRef, LocalBound, copy_bound, either};
use crate::orders::{greater_bound, greater_components, lesser_bound, lesser_components};
use fc_values::{Builtin, Memory, add_cut};
use std::alloc::Global;

/// The bound of the least of a value and those of the neighbours.
pub fn least_hood(alloc: Global, args: &[BoundRef<'_>]) -> Result<LocalBound, Memory>
    ensures { IfOk result (λ r.
        local_bound_in r ≡ hood_bound Builtin.MinHoodLoc 0 (lent_bounds_in args.now)) }
{
    match args {
        [spread, local] => match (spread, local) {
            (BoundRef::Field(field), BoundRef::Local(local)) => {
                least(alloc, &field.entries, local)
            }
            _ => Ok(LocalBound::Unbounded),
        },
        _ => Ok(LocalBound::Unbounded),
    }
}

/// The bound of the greatest of a value and those of the neighbours.
pub fn greatest_hood(alloc: Global, args: &[BoundRef<'_>]) -> Result<LocalBound, Memory>
    ensures { IfOk result (λ r.
        local_bound_in r ≡ hood_bound Builtin.MaxHoodLoc 0 (lent_bounds_in args.now)) }
{
    match args {
        [spread, local] => match (spread, local) {
            (BoundRef::Field(field), BoundRef::Local(local)) => {
                greatest(alloc, &field.entries, local)
            }
            _ => Ok(LocalBound::Unbounded),
        },
        _ => Ok(LocalBound::Unbounded),
    }
}

/// The bound of the sum of the neighbours' values.
pub fn sum_hood(args: &[BoundRef<'_>], ceiling: u32) -> LocalBound
    ensures { local_bound_in result ≡ hood_bound Builtin.SumHood ceiling (lent_bounds_in args.now) }
{
    match args {
        [spread] => match spread {
            BoundRef::Field(field) => sum(&field.entries, ceiling),
            _ => LocalBound::Unbounded,
        },
        _ => LocalBound::Unbounded,
    }
}

/// The bound of whether one of the neighbours' values is true.
pub fn any_hood(args: &[BoundRef<'_>]) -> LocalBound
    ensures { local_bound_in result ≡ hood_bound Builtin.AnyHood 0 (lent_bounds_in args.now) }
{
    match args {
        [spread] => match spread {
            BoundRef::Field(field) => any(&field.entries),
            _ => LocalBound::Unbounded,
        },
        _ => LocalBound::Unbounded,
    }
}

/// The bound of whether each of the neighbours' values is true.
pub fn all_hood(args: &[BoundRef<'_>]) -> LocalBound
    ensures { local_bound_in result ≡ hood_bound Builtin.AllHood 0 (lent_bounds_in args.now) }
{
    match args {
        [spread] => match spread {
            BoundRef::Field(field) => all(&field.entries),
            _ => LocalBound::Unbounded,
        },
        _ => LocalBound::Unbounded,
    }
}

fn least(alloc: Global, entries: &[BoundEntry], local: &LocalBound) -> Result<LocalBound, Memory>
    ensures { IfOk result (λ r.
        local_bound_in r ≡ least_bound (local_bound_in local.now) (entries_in entries.now)) }
{
    let mut best = copy_bound(alloc, local)?;
    for entry in entries {
        best = less_one(alloc, best, entry)?;
    }
    Ok(best)
}

// The least so far and that of one more neighbour. If it may be missing, the least so far may stay.
fn less_one(alloc: Global, best: LocalBound, entry: &BoundEntry) -> Result<LocalBound, Memory>
    ensures { IfOk result (λ r. local_bound_in r
        ≡ one_least entry.now.sure (local_bound_in best) (local_bound_in entry.now.bound)) }
{
    match (best, &entry.bound) {
        (LocalBound::Both(a, b), LocalBound::Both(c, d)) => {
            let (first, second) = lesser_components(alloc, &a, &b, c, d)?;
            renewed(alloc, entry.sure, a, b, first, second)
        }
        (best, bound) => {
            let lesser = lesser_bound(alloc, &best, bound)?;
            if entry.sure {
                Ok(lesser)
            } else {
                either(alloc, &lesser, &best)
            }
        }
    }
}

fn greatest(alloc: Global, entries: &[BoundEntry], local: &LocalBound) -> Result<LocalBound, Memory>
    ensures { IfOk result (λ r.
        local_bound_in r ≡ greatest_bound (local_bound_in local.now) (entries_in entries.now)) }
{
    let mut best = copy_bound(alloc, local)?;
    for entry in entries {
        best = greater_one(alloc, best, entry)?;
    }
    Ok(best)
}

// The greatest so far and that of one more neighbour. If it may be missing, the greatest so far may stay.
fn greater_one(alloc: Global, best: LocalBound, entry: &BoundEntry) -> Result<LocalBound, Memory>
    ensures { IfOk result (λ r. local_bound_in r
        ≡ one_greatest entry.now.sure (local_bound_in best) (local_bound_in entry.now.bound)) }
{
    match (best, &entry.bound) {
        (LocalBound::Both(a, b), LocalBound::Both(c, d)) => {
            let (first, second) = greater_components(alloc, &a, &b, c, d)?;
            renewed(alloc, entry.sure, a, b, first, second)
        }
        (best, bound) => {
            let greater = greater_bound(alloc, &best, bound)?;
            if entry.sure {
                Ok(greater)
            } else {
                either(alloc, &greater, &best)
            }
        }
    }
}

// A pair with other components, in the boxes that it has. If `sure` is false, those that it has may stay.
fn renewed(
    alloc: Global,
    sure: bool,
    mut a: Box<LocalBound>,
    mut b: Box<LocalBound>,
    first: LocalBound,
    second: LocalBound,
) -> Result<LocalBound, Memory>
    ensures { IfOk result (λ r. local_bound_in r ≡ (if sure then Both (local_bound_in first) (local_bound_in second)
        else either_of (Both (local_bound_in first) (local_bound_in second))
        (Both (local_bound_in a.value) (local_bound_in b.value)))) }
{
    if sure {
        *a = first;
        *b = second;
    } else {
        *a = either(alloc, &first, &a)?;
        *b = either(alloc, &second, &b)?;
    }
    Ok(LocalBound::Both(a, b))
}

fn sum(entries: &[BoundEntry], ceiling: u32) -> LocalBound
    ensures { local_bound_in result ≡ cut ceiling (sum_bound (entries_in entries.now)) }
{
    let mut least = 0;
    let mut greatest = 0;
    for entry in entries {
        let LocalBound::Between(low, high) = &entry.bound else {
            return LocalBound::Unbounded;
        };
        let sure = if entry.sure { *low } else { 0 };
        least = add_cut(least, sure, ceiling);
        greatest = add_cut(greatest, *high, ceiling);
    }
    LocalBound::Between(least, greatest)
}

fn any(entries: &[BoundEntry]) -> LocalBound
    ensures { local_bound_in result ≡ any_bound (entries_in entries.now) }
{
    let mut is_true = false;
    let mut may_be_true = false;
    for entry in entries {
        let LocalBound::Truths(must, may) = &entry.bound else {
            return LocalBound::Unbounded;
        };
        is_true = is_true || (entry.sure && *must);
        may_be_true = may_be_true || *may;
    }
    LocalBound::Truths(is_true, may_be_true)
}

fn all(entries: &[BoundEntry]) -> LocalBound
    ensures { local_bound_in result ≡ all_bound (entries_in entries.now) }
{
    let mut is_true = true;
    let mut may_be_true = true;
    for entry in entries {
        let LocalBound::Truths(must, may) = &entry.bound else {
            return LocalBound::Unbounded;
        };
        is_true = is_true && *must;
        may_be_true = may_be_true && (!entry.sure || *may);
    }
    LocalBound::Truths(is_true, may_be_true)
}
