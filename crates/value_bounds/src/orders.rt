//! How the values of two bounds compare, and bounds of the lesser and the greater one.

ghost use Rattle.std.specs.Prelude.{◌≡◌, IfOk};
ghost use Rattle.fc_values.specs.Values.{is_less as less_of};
ghost use Rattle.value_bounds.specs.BoundValues.{Both, greater_bound as greater, high_order as high};
ghost use Rattle.value_bounds.specs.BoundValues.{is_greater as greater_of, lesser_bound as lesser, low_order as low};
ghost use Rattle.value_bounds.specs.BoundValues.{may_equal as may_be_equal, must_equal as are_equal, second as second_of};
ghost use Rattle.value_bounds.specs.References.{local_bound_in};

use crate::bounds::{LocalBound, copy_bound, either};
use fc_values::Memory;
use std::alloc::Global;
use std::cmp::Ordering;

/// How the least value of one bound compares with the greatest of another.
pub fn low_order(a: &LocalBound, b: &LocalBound) -> Ordering
    ensures { result ≡ low (local_bound_in a.now) (local_bound_in b.now) }
{
    match (a, b) {
        (LocalBound::Between(least, _), LocalBound::Between(_, greatest)) => least.cmp(greatest),
        (LocalBound::Truths(must, _), LocalBound::Truths(_, may)) => must.cmp(may),
        (LocalBound::Both(a, b), LocalBound::Both(c, d)) => match low_order(a, c) {
            Ordering::Equal => low_order(b, d),
            other => other,
        },
        _ => Ordering::Less,
    }
}

/// How the greatest value of one bound compares with the least of another.
pub fn high_order(a: &LocalBound, b: &LocalBound) -> Ordering
    ensures { result ≡ high (local_bound_in a.now) (local_bound_in b.now) }
{
    match (a, b) {
        (LocalBound::Between(_, greatest), LocalBound::Between(least, _)) => greatest.cmp(least),
        (LocalBound::Truths(_, may), LocalBound::Truths(must, _)) => may.cmp(must),
        (LocalBound::Both(a, b), LocalBound::Both(c, d)) => match high_order(a, c) {
            Ordering::Equal => high_order(b, d),
            other => other,
        },
        _ => Ordering::Greater,
    }
}

/// Whether an order is `Less`.
pub fn is_less(order: Ordering) -> bool
    ensures { result ≡ less_of order }
{
    match order {
        Ordering::Less => true,
        _ => false,
    }
}

fn is_greater(order: Ordering) -> bool
    ensures { result ≡ greater_of order }
{
    match order {
        Ordering::Greater => true,
        _ => false,
    }
}

/// Whether a value of one bound may equal one of another.
pub fn may_equal(a: &LocalBound, b: &LocalBound) -> bool
    ensures { result ≡ may_be_equal (local_bound_in a.now) (local_bound_in b.now) }
{
    match (a, b) {
        (LocalBound::Between(a, b), LocalBound::Between(c, d)) => *a <= *d && *c <= *b,
        (LocalBound::Truths(a, b), LocalBound::Truths(c, d)) => (!*a || *d) && (!*c || *b),
        (LocalBound::Both(a, b), LocalBound::Both(c, d)) => may_equal(a, c) && may_equal(b, d),
        _ => true,
    }
}

/// Whether one value is left in two bounds, and it is the same.
pub fn must_equal(a: &LocalBound, b: &LocalBound) -> bool
    ensures { result ≡ are_equal (local_bound_in a.now) (local_bound_in b.now) }
{
    match (a, b) {
        (LocalBound::Between(a, b), LocalBound::Between(c, d)) => *a == *b && *c == *d && *a == *c,
        (LocalBound::Truths(a, b), LocalBound::Truths(c, d)) => *a == *b && *c == *d && *a == *c,
        (LocalBound::Both(a, b), LocalBound::Both(c, d)) => must_equal(a, c) && must_equal(b, d),
        _ => false,
    }
}

/// A bound of the lesser of two values.
#[cycle(lesser)]
#[inline(always)]
pub fn lesser_bound(alloc: Global, a: &LocalBound, b: &LocalBound) -> Result<LocalBound, Memory>
    ensures { IfOk result (λ r. local_bound_in r ≡ lesser (local_bound_in a.now) (local_bound_in b.now)) }
{
    match (a, b) {
        (LocalBound::Between(a, b), LocalBound::Between(c, d)) => {
            Ok(LocalBound::Between((*a).min(*c), (*b).min(*d)))
        }
        (LocalBound::Truths(a, b), LocalBound::Truths(c, d)) => {
            Ok(LocalBound::Truths(*a && *c, *b && *d))
        }
        (LocalBound::Both(a, b), LocalBound::Both(c, d)) => lesser_pair(alloc, a, b, c, d),
        _ => Ok(LocalBound::Unbounded),
    }
}

// The same of two pairs, apart so that `lesser_bound` may be inlined.
#[cycle(lesser)]
#[inline(never)]
fn lesser_pair(
    alloc: Global,
    a: &LocalBound,
    b: &LocalBound,
    c: &LocalBound,
    d: &LocalBound,
) -> Result<LocalBound, Memory>
    ensures { IfOk result (λ r. local_bound_in r ≡ lesser (Both (local_bound_in a.now) (local_bound_in b.now))
        (Both (local_bound_in c.now) (local_bound_in d.now))) }
{
    let (first, second) = lesser_components(alloc, a, b, c, d)?;
    let first = Box::new(alloc, first)?;
    let second = Box::new(alloc, second)?;
    Ok(LocalBound::Both(first, second))
}

/// The components of a bound of the lesser of two pairs.
#[cycle(lesser)]
pub fn lesser_components(
    alloc: Global,
    a: &LocalBound,
    b: &LocalBound,
    c: &LocalBound,
    d: &LocalBound,
) -> Result<(LocalBound, LocalBound), Memory>
    ensures { IfOk result (λ r. Both (local_bound_in r.0) (local_bound_in r.1)
        ≡ lesser (Both (local_bound_in a.now) (local_bound_in b.now))
        (Both (local_bound_in c.now) (local_bound_in d.now))) }
{
    let first = lesser_bound(alloc, a, c)?;
    let tied = lesser_bound(alloc, b, d)?;
    let leads = Leads {
        first: is_less(low_order(a, c)),
        second: is_greater(high_order(a, c)),
        equal: may_equal(a, c),
    };
    let second = second_bound(alloc, leads, b, d, tied)?;
    Ok((first, second))
}

/// A bound of the greater of two values.
#[cycle(greater)]
#[inline(always)]
pub fn greater_bound(alloc: Global, a: &LocalBound, b: &LocalBound) -> Result<LocalBound, Memory>
    ensures { IfOk result (λ r. local_bound_in r ≡ greater (local_bound_in a.now) (local_bound_in b.now)) }
{
    match (a, b) {
        (LocalBound::Between(a, b), LocalBound::Between(c, d)) => {
            Ok(LocalBound::Between((*a).max(*c), (*b).max(*d)))
        }
        (LocalBound::Truths(a, b), LocalBound::Truths(c, d)) => {
            Ok(LocalBound::Truths(*a || *c, *b || *d))
        }
        (LocalBound::Both(a, b), LocalBound::Both(c, d)) => greater_pair(alloc, a, b, c, d),
        _ => Ok(LocalBound::Unbounded),
    }
}

// The same of two pairs, apart so that `greater_bound` may be inlined.
#[cycle(greater)]
#[inline(never)]
fn greater_pair(
    alloc: Global,
    a: &LocalBound,
    b: &LocalBound,
    c: &LocalBound,
    d: &LocalBound,
) -> Result<LocalBound, Memory>
    ensures { IfOk result (λ r. local_bound_in r ≡ greater (Both (local_bound_in a.now) (local_bound_in b.now))
        (Both (local_bound_in c.now) (local_bound_in d.now))) }
{
    let (first, second) = greater_components(alloc, a, b, c, d)?;
    let first = Box::new(alloc, first)?;
    let second = Box::new(alloc, second)?;
    Ok(LocalBound::Both(first, second))
}

/// The components of a bound of the greater of two pairs.
#[cycle(greater)]
pub fn greater_components(
    alloc: Global,
    a: &LocalBound,
    b: &LocalBound,
    c: &LocalBound,
    d: &LocalBound,
) -> Result<(LocalBound, LocalBound), Memory>
    ensures { IfOk result (λ r. Both (local_bound_in r.0) (local_bound_in r.1)
        ≡ greater (Both (local_bound_in a.now) (local_bound_in b.now))
        (Both (local_bound_in c.now) (local_bound_in d.now))) }
{
    let first = greater_bound(alloc, a, c)?;
    let tied = greater_bound(alloc, b, d)?;
    let leads = Leads {
        first: is_greater(high_order(a, c)),
        second: is_less(low_order(a, c)),
        equal: may_equal(a, c),
    };
    let second = second_bound(alloc, leads, b, d, tied)?;
    Ok((first, second))
}

// How the first components of two pairs may lead: whether the first pair may be the one that is taken, whether the
// second may be, and whether they may be equal.
#[derive(Clone, Copy)]
struct Leads {
    first: bool,
    second: bool,
    equal: bool,
}

// The bound of the second component of the lesser, or greater, of two pairs, from those of their second components and
// of the lesser, or greater, of these.
fn second_bound(
    alloc: Global,
    leads: Leads,
    a: &LocalBound,
    b: &LocalBound,
    tied: LocalBound,
) -> Result<LocalBound, Memory>
    ensures { IfOk result (λ r. local_bound_in r ≡ second_of leads.first leads.second leads.equal (local_bound_in a.now)
        (local_bound_in b.now) (local_bound_in tied)) }
{
    let bound = match (leads.first, leads.second) {
        (true, true) => either(alloc, a, b)?,
        (true, false) => copy_bound(alloc, a)?,
        (false, true) => copy_bound(alloc, b)?,
        (false, false) => return Ok(tied),
    };
    if leads.equal {
        either(alloc, &bound, &tied)
    } else {
        Ok(bound)
    }
}
