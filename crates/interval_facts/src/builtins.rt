//! The ranges of builtins' values.

ghost use Rattle.std.specs.Prelude.{◌≡◌, ◌<◌, ◌∷◌, [], IfOk, length, slice_index_or as get_or};
ghost use Rattle.fc_values.specs.declared.builtins.Builtin.TheVariants as op;
ghost use Rattle.fc_values.specs.Types.{local_type_of};
ghost use Rattle.interval_facts.specs.Ranges.{range_value, BoolRange, both_ends, difference as difference_of, full as full_of, sum_cut, product_cut, builtin_range as range_of_builtin};
ghost use Rattle.fc_values.specs.BuiltinTypes.{arity};
ghost use Rattle.interval_facts.specs.Picks.{picked, AreThere, IsComponent, IsOfTwo, IsOfThree, other_of, value_range};

use crate::intervals::{
    Range, copy_range, full, greatest, greatest_of_hood, hull, least, least_of_hood, pair,
};
use fc_values::{Builtin, LocalTy, Memory, add_cut, multiply_cut};
use std::alloc::Global;

// Where values lie whatever the arguments are: the type of the value, and the ceiling.
#[derive(Clone, Copy)]
pub struct Target<'a> {
    pub ty: &'a LocalTy,
    pub ceiling: u32,
}

// The range of all values of a target.
fn whole(alloc: Global, target: &Target<'_>) -> Result<Range, Memory>
    ensures { IfOk result (λ r. range_value r ≡ other_of target.now) }
{
    full(alloc, target.ty, target.ceiling)
}

/// The range of a builtin's value of a type, out of the ranges at the places of its arguments.
pub fn builtin_range(
    alloc: Global,
    builtin: Builtin,
    ty: &LocalTy,
    ceiling: u32,
    ranges: &[Range],
    kids: &[u32],
) -> Result<Range, Memory>
    requires there { AreThere (length ranges.now) kids.now }
    requires arity { length kids.now ≡ arity builtin }
    ensures { IfOk result (λ r. range_value r
        ≡ range_of_builtin ceiling (full_of ceiling (local_type_of ty.now)) builtin (picked ranges.now kids.now)) }
{
    let target = Target { ty, ceiling };
    match builtin {
        Builtin::Less | Builtin::Equal | Builtin::And | Builtin::Or | Builtin::Not => Ok(
            Range::Bool,
        ),
        Builtin::AnyHood | Builtin::AllHood => Ok(Range::Bool),
        Builtin::SumHood => Ok(Range::Int(0, ceiling)),
        Builtin::Fst | Builtin::Snd => by_one(alloc, builtin, &target, ranges, kids),
        Builtin::Rise | Builtin::Mux => by_three(alloc, builtin, &target, ranges, kids),
        _ => by_two(alloc, builtin, &target, ranges, kids),
    }
}

// The range of the first or second component, by the places of its arguments.
fn by_one(
    alloc: Global,
    builtin: Builtin,
    target: &Target<'_>,
    ranges: &[Range],
    kids: &[u32],
) -> Result<Range, Memory>
    requires kind { IsComponent builtin }
    requires there { AreThere (length ranges.now) kids.now }
    requires arity { length kids.now ≡ arity builtin }
    ensures { IfOk result (λ r. range_value r ≡ value_range target.now builtin (picked ranges.now kids.now)) }
{
    let a = range_at(ranges, kids, 0);
    let range = component(alloc, builtin, target, a)?;
    Ok(range)
}

// The range of a builtin of two arguments, by the places of its arguments.
fn by_two(
    alloc: Global,
    builtin: Builtin,
    target: &Target<'_>,
    ranges: &[Range],
    kids: &[u32],
) -> Result<Range, Memory>
    requires kind { IsOfTwo builtin }
    requires there { AreThere (length ranges.now) kids.now }
    requires arity { length kids.now ≡ arity builtin }
    ensures { IfOk result (λ r. range_value r ≡ value_range target.now builtin (picked ranges.now kids.now)) }
{
    let a = range_at(ranges, kids, 0);
    let b = range_at(ranges, kids, 1);
    let range = of_two(alloc, builtin, target, a, b)?;
    Ok(range)
}

// The range of a builtin of three arguments, by the places of its arguments.
fn by_three(
    alloc: Global,
    builtin: Builtin,
    target: &Target<'_>,
    ranges: &[Range],
    kids: &[u32],
) -> Result<Range, Memory>
    requires kind { IsOfThree builtin }
    requires there { AreThere (length ranges.now) kids.now }
    requires arity { length kids.now ≡ arity builtin }
    ensures { IfOk result (λ r. range_value r ≡ value_range target.now builtin (picked ranges.now kids.now)) }
{
    let a = range_at(ranges, kids, 0);
    let b = range_at(ranges, kids, 1);
    let c = range_at(ranges, kids, 2);
    let range = of_three(alloc, builtin, target, a, b, c)?;
    Ok(range)
}

// The range of the first or second component.
fn component(
    alloc: Global,
    builtin: Builtin,
    target: &Target<'_>,
    a: &Range,
) -> Result<Range, Memory>
    requires { IsComponent builtin }
    ensures { IfOk result (λ r. range_value r ≡ value_range target.now builtin (range_value a.now ∷ [])) }
{
    match (builtin, a) {
        (Builtin::Fst, Range::Pair(first, _)) => copy_range(alloc, first),
        (Builtin::Snd, Range::Pair(_, second)) => copy_range(alloc, second),
        _ => whole(alloc, target),
    }
}

// The range of a builtin of three arguments.
fn of_three(
    alloc: Global,
    builtin: Builtin,
    target: &Target<'_>,
    a: &Range,
    b: &Range,
    c: &Range,
) -> Result<Range, Memory>
    requires { IsOfThree builtin }
    ensures { IfOk result (λ r. range_value r
        ≡ value_range target.now builtin (range_value a.now ∷ range_value b.now ∷ range_value c.now ∷ [])) }
{
    match builtin {
        Builtin::Mux => hull(alloc, b, c),
        _ => risen(alloc, target, a, b, c),
    }
}

// The range of `rise`.
fn risen(
    alloc: Global,
    target: &Target<'_>,
    a: &Range,
    b: &Range,
    c: &Range,
) -> Result<Range, Memory>
    ensures { IfOk result (λ r. range_value r
        ≡ value_range target.now op.Rise (range_value a.now ∷ range_value b.now ∷ range_value c.now ∷ [])) }
{
    let reached = sum(alloc, target, b, c)?;
    match (a, &reached) {
        (Range::Int(a, b), Range::Int(c, d)) => Ok(Range::Int(*a.min(c), *b.min(d))),
        _ => whole(alloc, target),
    }
}

// The range of a builtin of two arguments.
fn of_two(
    alloc: Global,
    builtin: Builtin,
    target: &Target<'_>,
    a: &Range,
    b: &Range,
) -> Result<Range, Memory>
    requires { IsOfTwo builtin }
    ensures { IfOk result (λ r. range_value r
        ≡ value_range target.now builtin (range_value a.now ∷ range_value b.now ∷ [])) }
{
    match builtin {
        Builtin::Add => sum(alloc, target, a, b),
        Builtin::Sub => difference(alloc, target, a, b),
        Builtin::Mul => product(alloc, target, a, b),
        Builtin::Min => least(alloc, a, b),
        Builtin::Max => greatest(alloc, a, b),
        Builtin::MinHoodLoc => least_of_hood(alloc, a, b),
        Builtin::MaxHoodLoc => greatest_of_hood(alloc, a, b),
        _ => pair(alloc, copy_range(alloc, a)?, copy_range(alloc, b)?),
    }
}

fn sum(alloc: Global, target: &Target<'_>, a: &Range, b: &Range) -> Result<Range, Memory>
    ensures { IfOk result (λ r. range_value r
        ≡ both_ends (sum_cut target.now.ceiling) (other_of target.now) (range_value a.now) (range_value b.now)) }
{
    let ceiling = target.ceiling;
    match (a, b) {
        (Range::Int(a, b), Range::Int(c, d)) => {
            Ok(Range::Int(add_cut(*a, *c, ceiling), add_cut(*b, *d, ceiling)))
        }
        _ => whole(alloc, target),
    }
}

fn product(alloc: Global, target: &Target<'_>, a: &Range, b: &Range) -> Result<Range, Memory>
    ensures { IfOk result (λ r. range_value r
        ≡ both_ends (product_cut target.now.ceiling) (other_of target.now) (range_value a.now) (range_value b.now)) }
{
    let ceiling = target.ceiling;
    match (a, b) {
        (Range::Int(a, b), Range::Int(c, d)) => {
            Ok(Range::Int(multiply_cut(*a, *c, ceiling), multiply_cut(*b, *d, ceiling)))
        }
        _ => whole(alloc, target),
    }
}

fn difference(alloc: Global, target: &Target<'_>, a: &Range, b: &Range) -> Result<Range, Memory>
    ensures { IfOk result (λ r. range_value r
        ≡ difference_of (other_of target.now) (range_value a.now) (range_value b.now)) }
{
    match (a, b) {
        (Range::Int(a, b), Range::Int(c, d)) => {
            Ok(Range::Int(a.saturating_sub(*d), b.saturating_sub(*c)))
        }
        _ => whole(alloc, target),
    }
}

// The range at the place of an argument.
pub fn range_at<'a>(ranges: &'a [Range], kids: &[u32], index: usize) -> &'a Range
    requires there { AreThere (length ranges.now) kids.now }
    requires index { index < length kids.now }
    ensures { range_value result.now ≡ get_or (picked ranges.now kids.now) index BoolRange }
{
    &ranges[kids[index] as usize]
}
