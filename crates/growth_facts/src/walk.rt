//! The walk over a body.

ghost use Rattle.std.specs.Prelude.{◌≡◌, ◌<◌, length};
ghost use Rattle.fc_nodes.specs.Terms.{term_at};
ghost use Rattle.fc_nodes.specs.Program.{unfolding_of};
ghost use Rattle.fc_nodes.specs.Places.{StandsAt, StandAfter};
ghost use Rattle.interval_facts.specs.Ranges.{AreRangesOf, range_of};
ghost use Rattle.growth_facts.specs.Growth.{facts_of};
ghost use Rattle.growth_facts.specs.Facts.{growth_value, facts_value, AreKids, facts_at};
ghost use Rattle.fc_nodes.specs.Sorts.{evolution_by};
ghost use Rattle.growth_facts.specs.Facts.{IsEvolving, node_facts, growth_at};

use crate::node_facts::{Evolving, Facts, Growth, Kids};
use crate::nodes::{closed_facts, join, least_integer, no_kids, with_kid};
use fc_nodes::{Unfolded, is_deep, is_share};
use interval_facts::Ranges;

/// The growth of the node at a place of the body of a `rep` or `share`, or the place of the node that has none.
pub fn growth(program: &Unfolded, ranges: &Ranges, rep: u32, place: u32) -> Growth
    requires ranges { AreRangesOf (unfolding_of program.now) ranges.now }
    requires evolving { IsEvolving program.now.nodes rep }
    requires place { place < length program.now.nodes }
    ensures { growth_value result ≡ growth_at program.now rep place }
{
    let facts = facts(program, ranges, rep, place);
    facts.growth
}

// What is known of the node at a place, by one walk over the nodes below it.
fn facts(program: &Unfolded, ranges: &Ranges, rep: u32, place: u32) -> Facts
    requires ranges { AreRangesOf (unfolding_of program.now) ranges.now }
    requires evolving { IsEvolving program.now.nodes rep }
    requires place { place < length program.now.nodes }
    ensures { facts_value result ≡ node_facts program.now rep place }
{
    let by_share = is_share(program.node(rep));
    let variable = Evolving {
        place: rep,
        by_share,
    };
    facts_below(program, ranges, &variable, place)
}

// The facts of the node at a place.
#[cycle(facts_below)]
fn facts_below(program: &Unfolded, ranges: &Ranges, variable: &Evolving, place: u32) -> Facts
    requires ranges { AreRangesOf (unfolding_of program.now) ranges.now }
    requires stands { StandsAt program.now.nodes place }
    ensures { facts_value result ≡ facts_of program.now.declared.ceiling (range_of (unfolding_of program.now))
        (evolution_by variable.now.by_share) variable.now.place place (term_at program.now.nodes place) }
{
    let node = program.node(place);
    let kids = node.kids.as_slice();
    let least = least_integer(ranges.at(place));
    let ceiling = program.declared().ceiling;
    if is_deep(node) {
        let uses = program.occurs(variable.place, place);
        return closed_facts(node, uses, least, place, ceiling);
    }
    let below = kids_below(program, ranges, variable, kids, place);
    join(node, variable, least, &below, place, ceiling)
}

// The facts of the kids of the node at a place.
#[cycle(facts_below)]
fn kids_below(
    program: &Unfolded,
    ranges: &Ranges,
    variable: &Evolving,
    kids: &[u32],
    place: u32,
) -> Kids
    requires ranges { AreRangesOf (unfolding_of program.now) ranges.now }
    requires stand { StandAfter program.now.nodes place kids.now }
    ensures { AreKids result (facts_at program.now (evolution_by variable.now.by_share) variable.now.place kids.now) }
{
    let mut below = no_kids();
    for kid in kids {
        let facts = facts_below(program, ranges, variable, *kid);
        below = with_kid(&below, facts);
    }
    below
}
