//! The facts of a node, from those of its kids.

ghost use Rattle.std.specs.Prelude.{ℕ, true, ◌≡◌, ◌<◌, ◌^◌, ◌||◌, ◌++◌, List, [], ◌∷◌};
ghost use Rattle.fc_values.specs.Types.{local_type_of, type_of};
ghost use Rattle.fc_values.specs.BuiltinTypes.{inner as inner_type};
ghost use Rattle.fc_nodes.specs.Terms.{Evolution, sort_of};
ghost use Rattle.interval_facts.specs.Ranges.{range_value};
ghost use Rattle.growth_facts.specs.Leads.{is_integer as is_integer_type, leads as leads_of};
ghost use Rattle.growth_facts.specs.Leads.{least_integer as least_integer_of, least_alone as least_alone_of};
ghost use Rattle.growth_facts.specs.Leads.{greatest_integer as greatest_integer_of, greatest_alone as greatest_alone_of};
ghost use Rattle.growth_facts.specs.Growth.{NodeFacts, growth_apart, growth_heard};
ghost use Rattle.growth_facts.specs.Facts.{growth_value, facts_value, AreKids, heard_sort, rest_sort};
ghost use Rattle.fc_nodes.specs.Sorts.{is_own_sort, evolution_by, is_deep_sort};
ghost use Rattle.growth_facts.specs.Facts.{sort_growth, joined, any_uses};

use crate::node_facts::{Evolving, Facts, Growth, Kids};
use crate::tables::{only_if, op_growth};
use fc_nodes::{Node, Op, is_own};
use fc_values::{Builtin, LocalTy, inner};
use interval_facts::Range;

/// The least integer of a range, for pairs that of the first component; 0 where there is none.
pub fn least_integer(range: &Range) -> u32
    ensures { result ≡ least_integer_of (range_value range.now) }
{
    match range {
        Range::Pair(first, _) => least_alone(first),
        _ => least_alone(range),
    }
}

// The least of a range of integers, and 0 for another range.
fn least_alone(range: &Range) -> u32
    ensures { result ≡ least_alone_of (range_value range.now) }
{
    match range {
        Range::Int(least, _) => *least,
        _ => 0,
    }
}

/// The greatest integer of a range, for pairs that of the first component; 0 where there is none.
pub fn greatest_integer(range: &Range) -> u32
    ensures { result ≡ greatest_integer_of (range_value range.now) }
{
    match range {
        Range::Pair(first, _) => greatest_alone(first),
        _ => greatest_alone(range),
    }
}

// The greatest of a range of integers, and 0 for another range.
fn greatest_alone(range: &Range) -> u32
    ensures { result ≡ greatest_alone_of (range_value range.now) }
{
    match range {
        Range::Int(_, greatest) => *greatest,
        _ => 0,
    }
}

// Whether a type is that of integers.
fn is_integer(ty: &LocalTy) -> bool
    ensures { result ≡ is_integer_type (local_type_of ty.now) }
{
    match ty {
        LocalTy::Int => true,
        _ => false,
    }
}

// Whether values of a type are integers, or pairs whose first component is one.
fn leads(ty: &LocalTy) -> bool
    ensures { result ≡ leads_of (local_type_of ty.now) }
{
    match ty {
        LocalTy::Int => true,
        LocalTy::Bool => false,
        LocalTy::Pair(first, _) => is_integer(first),
    }
}

// No kids.
pub fn no_kids() -> Kids
    ensures { AreKids result [] }
{
    let blank = Facts {
        uses: false,
        own: false,
        heard: false,
        rest: false,
        integer: false,
        leads: false,
        least: 0,
        growth: Growth::None(0),
    };
    Kids {
        uses: false,
        count: 0,
        first: blank,
        second: blank,
        third: blank,
    }
}

// The kids with one more, which has these facts.
pub fn with_kid(kids: &Kids, facts: Facts) -> Kids
    requires { kids.now.count < 2 ^ 63 }
    ensures { (fs : List NodeFacts) → AreKids kids.now fs → AreKids result (fs ++ facts_value facts ∷ []) }
{
    let mut more = *kids;
    more.uses = kids.uses | facts.uses;
    more.count = kids.count + 1;
    match kids.count {
        0 => more.first = facts,
        1 => more.second = facts,
        2 => more.third = facts,
        _ => {}
    }
    more
}

// Whether a node is what is heard of a variable.
fn is_heard(node: &Node, variable: &Evolving, own: bool, kids: &Kids) -> bool
    requires { own ≡ is_own_sort variable.now.place (sort_of node.now.op) }
    ensures { (fs : List NodeFacts) → AreKids kids.now fs
        → result ≡ heard_sort (evolution_by variable.now.by_share) variable.now.place (sort_of node.now.op) fs }
{
    match &node.op {
        Op::Nbr => !variable.by_share && kids.first.own,
        _ => variable.by_share && own,
    }
}

// Whether a node is the second component of what is heard.
fn is_rest(node: &Node, kids: &Kids) -> bool
    ensures { (fs : List NodeFacts) → AreKids kids.now fs → result ≡ rest_sort (sort_of node.now.op) fs }
{
    match &node.op {
        Op::Apply(Builtin::Snd) => kids.count == 1 && kids.first.heard,
        _ => false,
    }
}

// The growth of a node in which the variable occurs, and which isn't what is heard of it.
fn growth_of_kids(node: &Node, kids: &Kids, place: u32, ceiling: u32) -> Growth
    ensures { (fs : List NodeFacts) → AreKids kids.now fs
        → growth_value result ≡ sort_growth ceiling place (sort_of node.now.op) fs }
{
    match &node.op {
        Op::Apply(builtin) => op_growth(*builtin, kids, place, ceiling),
        _ => Growth::None(place),
    }
}

// The growth of a node without the variable.
fn apart(least: u32, place: u32, ceiling: u32) -> Growth
    ensures { growth_value result ≡ growth_apart ceiling place least }
{
    only_if(least == ceiling, place, Growth::At(ceiling))
}

// The growth of what is heard of the variable.
fn of_heard(leads: bool, place: u32) -> Growth
    ensures { growth_value result ≡ growth_heard place leads }
{
    only_if(leads, place, Growth::At(0))
}

// The facts of a node from those of its kids, and from the least integer of its range.
pub fn join(
    node: &Node,
    variable: &Evolving,
    least: u32,
    kids: &Kids,
    place: u32,
    ceiling: u32,
) -> Facts
    ensures { (fs : List NodeFacts) → AreKids kids.now fs
        → facts_value result ≡ joined ceiling (evolution_by variable.now.by_share) variable.now.place place
        (sort_of node.now.op) (inner_type (type_of node.now.ty)) least fs }
{
    let ty = inner(&node.ty);
    let own = is_own(node, variable.place);
    let uses = own || kids.uses;
    let heard = is_heard(node, variable, own, kids);
    let leads = leads(ty);
    let growth = if !uses {
        apart(least, place, ceiling)
    } else if heard {
        of_heard(leads, place)
    } else {
        growth_of_kids(node, kids, place, ceiling)
    };
    Facts {
        uses,
        own,
        heard,
        rest: is_rest(node, kids),
        integer: is_integer(ty),
        leads,
        least,
        growth,
    }
}

// The facts of a `rep`, a `share`, an `if` or a `let`, in which nothing with the variable grows, by whether the
// variable occurs in it.
pub fn closed_facts(node: &Node, uses: bool, least: u32, place: u32, ceiling: u32) -> Facts
    requires { is_deep_sort (sort_of node.now.op) ≡ true }
    ensures { (e : Evolution) (x : ℕ) (fs : List NodeFacts) → uses ≡ any_uses fs
        → facts_value result ≡ joined ceiling e x place (sort_of node.now.op)
        (inner_type (type_of node.now.ty)) least fs }
{
    let ty = inner(&node.ty);
    let growth = if uses {
        Growth::None(place)
    } else {
        apart(least, place, ceiling)
    };
    Facts {
        uses,
        own: false,
        heard: false,
        rest: false,
        integer: is_integer(ty),
        leads: leads(ty),
        least,
        growth,
    }
}
