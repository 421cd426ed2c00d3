//! The growth of a builtin by its arguments.

ghost use Rattle.std.specs.Prelude.{◌≡◌, List, [], ◌∷◌};
ghost use Rattle.growth_facts.specs.Growth.{NodeFacts, only_if as only_if_of, on_one_side as on_one_side_of};
ghost use Rattle.growth_facts.specs.Growth.{raised as raised_of, lesser_growth, op_growth as op_growth_of};
ghost use Rattle.growth_facts.specs.Facts.{growth_value, facts_value, AreKids};

use crate::node_facts::{Facts, Growth, Kids};
use fc_values::{Builtin, add_cut};

// A growth under a condition.
pub fn only_if(condition: bool, place: u32, growth: Growth) -> Growth
    ensures { growth_value result ≡ only_if_of condition place (growth_value growth) }
{
    if condition {
        growth
    } else {
        Growth::None(place)
    }
}

// The growth where the variable is in one of two arguments alone.
fn on_one_side(a: &Facts, b: &Facts, place: u32, first: Growth, second: Growth) -> Growth
    ensures { growth_value result ≡ on_one_side_of a.now.uses b.now.uses place (growth_value first)
        (growth_value second) }
{
    match (a.uses, b.uses) {
        (true, false) => first,
        (false, true) => second,
        _ => Growth::None(place),
    }
}

// More by the least of a summand.
fn raised(growth: Growth, least: u32, ceiling: u32) -> Growth
    ensures { growth_value result ≡ raised_of ceiling least (growth_value growth) }
{
    match growth {
        Growth::At(growth) => Growth::At(add_cut(growth, least, ceiling)),
        none => none,
    }
}

// The lesser of two growths, where both are there.
fn lesser(a: Growth, b: Growth) -> Growth
    ensures { growth_value result ≡ lesser_growth (growth_value a) (growth_value b) }
{
    match (a, b) {
        (Growth::At(a), Growth::At(b)) => Growth::At(a.min(b)),
        (Growth::At(_), none) => none,
        (none, _) => none,
    }
}

// The growth of a builtin of one argument.
fn of_one(builtin: Builtin, a: &Facts, place: u32, ceiling: u32) -> Growth
    ensures { growth_value result ≡ op_growth_of ceiling place builtin (facts_value a.now ∷ []) }
{
    match builtin {
        Builtin::Fst => only_if(a.heard && a.leads, place, Growth::At(0)),
        _ => Growth::None(place),
    }
}

// The growth of a builtin of two arguments.
fn of_two(builtin: Builtin, a: &Facts, b: &Facts, place: u32, ceiling: u32) -> Growth
    ensures { growth_value result ≡ op_growth_of ceiling place builtin (facts_value a.now ∷ facts_value b.now ∷ []) }
{
    match builtin {
        Builtin::Add => {
            let first = raised(a.growth, b.least, ceiling);
            let second = raised(b.growth, a.least, ceiling);
            on_one_side(a, b, place, first, second)
        }
        Builtin::Mul => {
            let first = only_if(b.least >= 1, place, a.growth);
            let second = only_if(a.least >= 1, place, b.growth);
            on_one_side(a, b, place, first, second)
        }
        Builtin::Max => on_one_side(a, b, place, a.growth, b.growth),
        Builtin::Min => lesser(a.growth, b.growth),
        Builtin::Pair => only_if(a.integer && (!b.uses || b.rest), place, a.growth),
        _ => Growth::None(place),
    }
}

// The growth of a builtin of three arguments.
fn of_three(builtin: Builtin, a: &Facts, b: &Facts, c: &Facts, place: u32, ceiling: u32) -> Growth
    ensures { growth_value result ≡ op_growth_of ceiling place builtin
        (facts_value a.now ∷ facts_value b.now ∷ facts_value c.now ∷ []) }
{
    match builtin {
        Builtin::Mux => only_if(!a.uses, place, lesser(b.growth, c.growth)),
        _ => Growth::None(place),
    }
}

// The growth of a builtin by its arguments.
pub fn op_growth(builtin: Builtin, kids: &Kids, place: u32, ceiling: u32) -> Growth
    ensures { (fs : List NodeFacts) → AreKids kids.now fs
        → growth_value result ≡ op_growth_of ceiling place builtin fs }
{
    match kids.count {
        1 => of_one(builtin, &kids.first, place, ceiling),
        2 => of_two(builtin, &kids.first, &kids.second, place, ceiling),
        3 => of_three(
            builtin,
            &kids.first,
            &kids.second,
            &kids.third,
            place,
            ceiling,
        ),
        _ => Growth::None(place),
    }
}
