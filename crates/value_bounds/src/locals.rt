//! What operators make of bounds of local values.

ghost use Rattle.std.specs.Prelude.{◌≡◌, ℕ, ◌∷◌, [], IfOk};
ghost use Rattle.value_bounds.specs.BoundBuiltins.{chosen as chosen_of, local_bound, of_both};
ghost use Rattle.value_bounds.specs.References.{local_bound_in};

use crate::bounds::{LocalBound, copy_bound, either};
use crate::orders::{
    greater_bound, high_order, is_less, lesser_bound, low_order, may_equal, must_equal,
};
use fc_values::{Builtin, Memory, add_cut, multiply_cut};
use std::alloc::Global;

/// The bound of what an operator makes of one value in a bound.
pub fn of_one(alloc: Global, builtin: Builtin, a: &LocalBound) -> Result<LocalBound, Memory>
    ensures { IfOk result (λ r. (ceiling : ℕ) →
        local_bound_in r ≡ local_bound builtin ceiling (local_bound_in a.now ∷ [])) }
{
    match builtin {
        Builtin::Not => Ok(negation(a)),
        Builtin::Fst => first_component(alloc, a),
        Builtin::Snd => second_component(alloc, a),
        _ => Ok(LocalBound::Unbounded),
    }
}

/// The same of two values.
pub fn of_two(
    alloc: Global,
    builtin: Builtin,
    a: &LocalBound,
    b: &LocalBound,
    ceiling: u32,
) -> Result<LocalBound, Memory>
    ensures { IfOk result (λ r.
        local_bound_in r ≡ local_bound builtin ceiling (local_bound_in a.now ∷ local_bound_in b.now ∷ [])) }
{
    match builtin {
        Builtin::Add => Ok(sum(a, b, ceiling)),
        Builtin::Sub => Ok(difference(a, b)),
        Builtin::Mul => Ok(product(a, b, ceiling)),
        Builtin::Min => lesser_bound(alloc, a, b),
        Builtin::Max => greater_bound(alloc, a, b),
        Builtin::Less => Ok(less(a, b)),
        Builtin::Equal => Ok(LocalBound::Truths(must_equal(a, b), may_equal(a, b))),
        Builtin::And => Ok(conjunction(a, b)),
        Builtin::Or => Ok(disjunction(a, b)),
        Builtin::Pair => pair(alloc, a, b),
        _ => Ok(LocalBound::Unbounded),
    }
}

/// The same of three values.
pub fn of_three(
    alloc: Global,
    builtin: Builtin,
    a: &LocalBound,
    b: &LocalBound,
    c: &LocalBound,
) -> Result<LocalBound, Memory>
    ensures { IfOk result (λ r. (ceiling : ℕ) → local_bound_in r
        ≡ local_bound builtin ceiling (local_bound_in a.now ∷ local_bound_in b.now ∷ local_bound_in c.now ∷ [])) }
{
    match builtin {
        Builtin::Mux => choice(alloc, a, b, c),
        Builtin::Rise => Ok(risen(a, b, c)),
        _ => Ok(LocalBound::Unbounded),
    }
}

fn sum(a: &LocalBound, b: &LocalBound, ceiling: u32) -> LocalBound
    ensures { local_bound_in result
        ≡ local_bound Builtin.Add ceiling (local_bound_in a.now ∷ local_bound_in b.now ∷ []) }
{
    match (a, b) {
        (LocalBound::Between(a, b), LocalBound::Between(c, d)) => {
            LocalBound::Between(add_cut(*a, *c, ceiling), add_cut(*b, *d, ceiling))
        }
        _ => LocalBound::Unbounded,
    }
}

fn difference(a: &LocalBound, b: &LocalBound) -> LocalBound
    ensures { local_bound_in result
        ≡ local_bound Builtin.Sub 0 (local_bound_in a.now ∷ local_bound_in b.now ∷ []) }
{
    match (a, b) {
        (LocalBound::Between(a, b), LocalBound::Between(c, d)) => {
            LocalBound::Between((*a).saturating_sub(*d), (*b).saturating_sub(*c))
        }
        _ => LocalBound::Unbounded,
    }
}

fn product(a: &LocalBound, b: &LocalBound, ceiling: u32) -> LocalBound
    ensures { local_bound_in result
        ≡ local_bound Builtin.Mul ceiling (local_bound_in a.now ∷ local_bound_in b.now ∷ []) }
{
    match (a, b) {
        (LocalBound::Between(a, b), LocalBound::Between(c, d)) => {
            LocalBound::Between(multiply_cut(*a, *c, ceiling), multiply_cut(*b, *d, ceiling))
        }
        _ => LocalBound::Unbounded,
    }
}

fn less(a: &LocalBound, b: &LocalBound) -> LocalBound
    ensures { local_bound_in result
        ≡ local_bound Builtin.Less 0 (local_bound_in a.now ∷ local_bound_in b.now ∷ []) }
{
    LocalBound::Truths(is_less(high_order(a, b)), is_less(low_order(a, b)))
}

fn conjunction(a: &LocalBound, b: &LocalBound) -> LocalBound
    ensures { local_bound_in result
        ≡ local_bound Builtin.And 0 (local_bound_in a.now ∷ local_bound_in b.now ∷ []) }
{
    match (a, b) {
        (LocalBound::Truths(a, b), LocalBound::Truths(c, d)) => {
            LocalBound::Truths(*a && *c, *b && *d)
        }
        _ => LocalBound::Unbounded,
    }
}

fn disjunction(a: &LocalBound, b: &LocalBound) -> LocalBound
    ensures { local_bound_in result
        ≡ local_bound Builtin.Or 0 (local_bound_in a.now ∷ local_bound_in b.now ∷ []) }
{
    match (a, b) {
        (LocalBound::Truths(a, b), LocalBound::Truths(c, d)) => {
            LocalBound::Truths(*a || *c, *b || *d)
        }
        _ => LocalBound::Unbounded,
    }
}

fn negation(a: &LocalBound) -> LocalBound
    ensures { local_bound_in result ≡ local_bound Builtin.Not 0 (local_bound_in a.now ∷ []) }
{
    match a {
        LocalBound::Truths(must, may) => LocalBound::Truths(!*may, !*must),
        _ => LocalBound::Unbounded,
    }
}

fn risen(a: &LocalBound, b: &LocalBound, step: &LocalBound) -> LocalBound
    ensures { local_bound_in result ≡ local_bound Builtin.Rise 0
        (local_bound_in a.now ∷ local_bound_in b.now ∷ local_bound_in step.now ∷ []) }
{
    match (a, b, step) {
        (LocalBound::Between(a, b), LocalBound::Between(c, d), LocalBound::Between(e, g)) => {
            LocalBound::Between(add_cut(*c, *e, *a), add_cut(*d, *g, *b))
        }
        _ => LocalBound::Unbounded,
    }
}

fn pair(alloc: Global, a: &LocalBound, b: &LocalBound) -> Result<LocalBound, Memory>
    ensures { IfOk result (λ r. local_bound_in r
        ≡ local_bound Builtin.Pair 0 (local_bound_in a.now ∷ local_bound_in b.now ∷ [])) }
{
    let first = Box::new(alloc, copy_bound(alloc, a)?)?;
    let second = Box::new(alloc, copy_bound(alloc, b)?)?;
    Ok(LocalBound::Both(first, second))
}

fn first_component(alloc: Global, both: &LocalBound) -> Result<LocalBound, Memory>
    ensures { IfOk result (λ r. local_bound_in r ≡ of_both (λ a b. a) (local_bound_in both.now ∷ [])) }
{
    match both {
        LocalBound::Both(a, _) => copy_bound(alloc, a),
        _ => Ok(LocalBound::Unbounded),
    }
}

fn second_component(alloc: Global, both: &LocalBound) -> Result<LocalBound, Memory>
    ensures { IfOk result (λ r. local_bound_in r ≡ of_both (λ a b. b) (local_bound_in both.now ∷ [])) }
{
    match both {
        LocalBound::Both(_, b) => copy_bound(alloc, b),
        _ => Ok(LocalBound::Unbounded),
    }
}

fn choice(
    alloc: Global,
    truth: &LocalBound,
    a: &LocalBound,
    b: &LocalBound,
) -> Result<LocalBound, Memory>
    ensures { IfOk result (λ r. local_bound_in r ≡ local_bound Builtin.Mux 0
        (local_bound_in truth.now ∷ local_bound_in a.now ∷ local_bound_in b.now ∷ [])) }
{
    match truth {
        LocalBound::Truths(true, _) => copy_bound(alloc, a),
        LocalBound::Truths(false, true) => either(alloc, a, b),
        LocalBound::Truths(false, false) => copy_bound(alloc, b),
        _ => Ok(LocalBound::Unbounded),
    }
}
