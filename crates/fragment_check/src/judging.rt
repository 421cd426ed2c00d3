//! The pattern of a `rep` or `share`, or why it has none.

ghost use Rattle.std.specs.Prelude.{◌≡◌};
ghost use Rattle.fc_nodes.specs.Terms.{term_at};
ghost use Rattle.fc_nodes.specs.Places.{StandsAt};
ghost use Rattle.fc_nodes.specs.Program.{unfolding_of};
ghost use Rattle.interval_facts.specs.Ranges.{range_value, AreRangesOf, range_of};
ghost use Rattle.growth_facts.specs.Facts.{growth_value, IsEvolving, evolution_at};
ghost use Rattle.fragment_check.specs.Patterns.{raising as raising_of, minimising as minimising_of, rising as rising_of, no_pattern as no_pattern_of, body_pattern as pattern_of_body, is_pair_range, by_form, evolution_form};
ghost use Rattle.fragment_check.specs.Facts.{evolution_of};
ghost use Rattle.fragment_check.specs.Verdicts.{pattern_at};

use crate::facts::{Guarding, Own, gather};
use crate::forms::{Places, form, unguarded};
use crate::kinds::Pattern;
use fc_nodes::{Reason, Unfolded, is_share};
use growth_facts::{Growth, greatest_integer, growth, least_integer};
use interval_facts::{Range, Ranges};

/// The pattern of the `rep` or `share` at a place, or why it has none.
pub fn pattern(program: &Unfolded, ranges: &Ranges, rep: u32) -> Result<Pattern, Reason>
    requires ranges { AreRangesOf (unfolding_of program.now) ranges.now }
    requires evolving { IsEvolving program.now.nodes rep }
    ensures { result ≡ pattern_at (unfolding_of program.now) rep }
{
    let node = program.node(rep);
    let own = Own {
        place: rep,
        is_share: is_share(node),
    };
    body_pattern(program, ranges, own, node.kids[1])
}

// The pattern of a body.
fn body_pattern(program: &Unfolded, ranges: &Ranges, own: Own, body: u32) -> Result<Pattern, Reason>
    requires ranges { AreRangesOf (unfolding_of program.now) ranges.now }
    requires evolving { IsEvolving program.now.nodes own.place }
    requires evolution { evolution_at program.now.nodes own.place ≡ evolution_of own }
    requires stands { StandsAt program.now.nodes body }
    ensures { result ≡ pattern_of_body program.now.declared.ceiling (range_of (unfolding_of program.now))
        (evolution_of own) own.place body (term_at program.now.nodes body) }
{
    let facts = gather(program, own, body);
    if !facts.uses {
        return Ok(Pattern::Constant);
    }
    if facts.nested {
        return Err(Reason::Nested);
    }
    if unguarded(program, own, body, facts.bare) {
        return Err(Reason::Unguarded);
    }
    match facts.guarding {
        Guarding::Potential(potential) => Ok(Pattern::Acyclic { potential }),
        guarding => formed_pattern(program, ranges, own, body, guarding),
    }
}

// The pattern of a body by its form.
fn formed_pattern(
    program: &Unfolded,
    ranges: &Ranges,
    own: Own,
    body: u32,
    guarding: Guarding,
) -> Result<Pattern, Reason>
    requires ranges { AreRangesOf (unfolding_of program.now) ranges.now }
    requires evolving { IsEvolving program.now.nodes own.place }
    requires evolution { evolution_at program.now.nodes own.place ≡ evolution_of own }
    requires stands { StandsAt program.now.nodes body }
    ensures { result ≡ by_form program.now.declared.ceiling (range_of (unfolding_of program.now))
        (evolution_of own) own.place body guarding (evolution_form (evolution_of own) own.place
        (term_at program.now.nodes body)) }
{
    let ceiling = program.declared().ceiling;
    match form(program, own, body) {
        Places::Hood { h, l } => {
            let growth = growth(program, ranges, own.place, h);
            minimising(ceiling, growth, ranges.at(l))
        }
        Places::Rise { h, l, s } => {
            let growth = growth(program, ranges, own.place, h);
            rising(growth, ranges.at(l), ranges.at(s))
        }
        Places::Other => Err(no_pattern(guarding)),
    }
}

// The pattern of `minHoodLoc(h, l)`, by the growth of h and the range of l.
fn minimising(ceiling: u32, growth: Growth, local: &Range) -> Result<Pattern, Reason>
    ensures { result ≡ minimising_of ceiling (growth_value growth) (range_value local.now) }
{
    let greatest = greatest_integer(local);
    match raising(growth) {
        Err(reason) => Err(reason),
        Ok(_) if is_pair(local) && greatest == ceiling => Err(Reason::LeadAtCeiling),
        Ok(growth) => Ok(Pattern::Minimising { greatest, growth }),
    }
}

// The pattern of `rise(minHoodLoc(h, l), x, s)`, by the growth of h and the ranges of l and s.
fn rising(growth: Growth, local: &Range, step: &Range) -> Result<Pattern, Reason>
    ensures { result ≡ rising_of (growth_value growth) (range_value local.now) (range_value step.now) }
{
    let greatest = greatest_integer(local);
    let rise = least_integer(step);
    match raising(growth) {
        Err(reason) => Err(reason),
        Ok(_) if rise == 0 => Err(Reason::RiseZero),
        Ok(growth) => Ok(Pattern::Rising {
            greatest,
            growth,
            rise,
        }),
    }
}

// A growth that raises, or why there is none.
fn raising(growth: Growth) -> Result<u32, Reason>
    ensures { result ≡ raising_of (growth_value growth) }
{
    match growth {
        Growth::None(_) => Err(Reason::NoGrowth),
        Growth::At(0) => Err(Reason::GrowthZero),
        Growth::At(growth) => Ok(growth),
    }
}

fn is_pair(range: &Range) -> bool
    ensures { result ≡ is_pair_range (range_value range.now) }
{
    match range {
        Range::Pair(_, _) => true,
        _ => false,
    }
}

// Why a body of no form has no pattern.
fn no_pattern(guarding: Guarding) -> Reason
    ensures { result ≡ no_pattern_of guarding }
{
    match guarding {
        Guarding::Missing => Reason::Converging,
        _ => Reason::Potential,
    }
}
