//! Ranges, and how they join.

ghost use Rattle.std.specs.Prelude.{◌≡◌, IfOk};
ghost use Rattle.fc_values.specs.Types.{local_type_of};
ghost use Rattle.fc_values.specs.Values.{local_of};
ghost use Rattle.interval_facts.specs.Ranges.{range_value, full as full_of, hull as hull_of, least_range, greatest_range, least_hood, greatest_hood, literal_range as literal_range_of, PairRange};

use fc_values::{Local, LocalTy, Memory};
use std::alloc::Global;

/// Between which integers values lie: the least and the greatest, and for pairs a range of each component. Truth values
/// have no ends. The range of a field holds for each of its values.
#[derive(Drop)]
pub enum Range {
    Int(u32, u32),
    Bool,
    Pair(Box<Range>, Box<Range>),
}

/// A range of pairs.
pub fn pair(alloc: Global, first: Range, second: Range) -> Result<Range, Memory>
    ensures { IfOk result (λ r. range_value r ≡ PairRange (range_value first) (range_value second)) }
{
    let first = Box::new(alloc, first)?;
    let second = Box::new(alloc, second)?;
    Ok(Range::Pair(first, second))
}

/// A copy of a range.
pub fn copy_range(alloc: Global, range: &Range) -> Result<Range, Memory>
    ensures { IfOk result (λ r. range_value r ≡ range_value range.now) }
{
    match range {
        Range::Int(least, greatest) => Ok(Range::Int(*least, *greatest)),
        Range::Bool => Ok(Range::Bool),
        Range::Pair(a, b) => pair(alloc, copy_range(alloc, a)?, copy_range(alloc, b)?),
    }
}

/// The range of all values of a type.
pub fn full(alloc: Global, ty: &LocalTy, ceiling: u32) -> Result<Range, Memory>
    ensures { IfOk result (λ r. range_value r ≡ full_of ceiling (local_type_of ty.now)) }
{
    match ty {
        LocalTy::Int => Ok(Range::Int(0, ceiling)),
        LocalTy::Bool => Ok(Range::Bool),
        LocalTy::Pair(a, b) => pair(alloc, full(alloc, a, ceiling)?, full(alloc, b, ceiling)?),
    }
}

/// The range of one value.
pub fn literal_range(alloc: Global, value: &Local) -> Result<Range, Memory>
    ensures { IfOk result (λ r. range_value r ≡ literal_range_of (local_of value.now)) }
{
    match value {
        Local::Int(n) => Ok(Range::Int(*n, *n)),
        Local::Bool(_) => Ok(Range::Bool),
        Local::Pair(a, b) => pair(alloc, literal_range(alloc, a)?, literal_range(alloc, b)?),
    }
}

/// The least range that holds two ranges.
pub fn hull(alloc: Global, a: &Range, b: &Range) -> Result<Range, Memory>
    ensures { IfOk result (λ r. range_value r ≡ hull_of (range_value a.now) (range_value b.now)) }
{
    match (a, b) {
        (Range::Int(a, b), Range::Int(c, d)) => Ok(Range::Int(*a.min(c), *b.max(d))),
        (Range::Pair(a, b), Range::Pair(c, d)) => pair(
            alloc,
            hull(alloc, a, c)?,
            hull(alloc, b, d)?,
        ),
        _ => copy_range(alloc, a),
    }
}

/// The range of the lesser of two values.
pub fn least(alloc: Global, a: &Range, b: &Range) -> Result<Range, Memory>
    ensures { IfOk result (λ r. range_value r ≡ least_range (range_value a.now) (range_value b.now)) }
{
    match (a, b) {
        (Range::Int(a, b), Range::Int(c, d)) => Ok(Range::Int(*a.min(c), *b.min(d))),
        (Range::Pair(a, b), Range::Pair(c, d)) => pair(
            alloc,
            least(alloc, a, c)?,
            hull(alloc, b, d)?,
        ),
        _ => copy_range(alloc, a),
    }
}

/// The range of the greater of two values.
pub fn greatest(alloc: Global, a: &Range, b: &Range) -> Result<Range, Memory>
    ensures { IfOk result (λ r. range_value r ≡ greatest_range (range_value a.now) (range_value b.now)) }
{
    match (a, b) {
        (Range::Int(a, b), Range::Int(c, d)) => Ok(Range::Int(*a.max(c), *b.max(d))),
        (Range::Pair(a, b), Range::Pair(c, d)) => pair(
            alloc,
            greatest(alloc, a, c)?,
            hull(alloc, b, d)?,
        ),
        _ => copy_range(alloc, a),
    }
}

/// The range of the least of a local value and the values of a field.
pub fn least_of_hood(alloc: Global, field: &Range, local: &Range) -> Result<Range, Memory>
    ensures { IfOk result (λ r. range_value r ≡ least_hood (range_value field.now) (range_value local.now)) }
{
    match (field, local) {
        (Range::Int(a, _), Range::Int(c, d)) => Ok(Range::Int(*a.min(c), *d)),
        (Range::Pair(a, b), Range::Pair(c, d)) => pair(
            alloc,
            least_of_hood(alloc, a, c)?,
            hull(alloc, b, d)?,
        ),
        _ => copy_range(alloc, local),
    }
}

/// The range of the greatest of a local value and the values of a field.
pub fn greatest_of_hood(alloc: Global, field: &Range, local: &Range) -> Result<Range, Memory>
    ensures { IfOk result (λ r. range_value r ≡ greatest_hood (range_value field.now) (range_value local.now)) }
{
    match (field, local) {
        (Range::Int(_, b), Range::Int(c, d)) => Ok(Range::Int(*c, *b.max(d))),
        (Range::Pair(a, b), Range::Pair(c, d)) => pair(
            alloc,
            greatest_of_hood(alloc, a, c)?,
            hull(alloc, b, d)?,
        ),
        _ => copy_range(alloc, local),
    }
}
