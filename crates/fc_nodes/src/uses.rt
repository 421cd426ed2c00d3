//! Where terms end, and where variables stand.

ghost use Rattle.std.specs.Prelude.{◌≡◌, ◌<◌, ◌≤◌, ◌+◌, IfOk, OnOk, length, nat_lt, replicate, []};
ghost use Rattle.std.specs.List.{prefix_len};
ghost use Rattle.fc_values.specs.declared.limits.TheConstants.{MOST_NODES};
ghost use Rattle.fc_values.specs.Fields.{Rises};
ghost use Rattle.fc_nodes.specs.Terms.{sort_of, term_at, size, WellFormed};
ghost use Rattle.fc_nodes.specs.Occurrences.{AreEnds, AreEndsFrom, AreUsesBefore, lists_of, noted, noted_sort};

use crate::layouts::node_at;
use crate::nodes::{Node, Op};
use fc_values::Memory;
use std::alloc::Global;

/// How many of some rising places come before another.
pub(crate) fn before(places: &[u32], place: u32) -> usize
    requires { Rises places.now }
    ensures { result ≡ prefix_len (λ n. nat_lt n place) places.now }
{
    places.partition_point(|n| *n < place)
}

/// For each place of a program, the first place after the term there.
pub(crate) fn ends_of(alloc: Global, nodes: &[Node]) -> Result<Vec<u32>, Memory>
    requires formed { WellFormed nodes.now }
    requires short { length nodes.now ≤ MOST_NODES }
    ensures { IfOk result (λ ends. AreEnds nodes.now ends.items) }
{
    let mut ends = vec![in alloc; 0; nodes.len()]?;
    let mut left = nodes.len();
    while left > 0 {
        left -= 1;
        ends[left] = end_of(nodes, left as u32, ends.as_slice());
    }
    Ok(ends)
}

// The first place after the term at a place, from the ends of later terms.
fn end_of(nodes: &[Node], place: u32, ends: &[u32]) -> u32
    requires formed { WellFormed nodes.now }
    requires short { length nodes.now ≤ MOST_NODES }
    requires within { place < length nodes.now }
    requires later { AreEndsFrom nodes.now (place + 1) ends.now }
    ensures { result ≡ place + size (term_at nodes.now place) }
{
    match node_at(nodes, place).kids.last() {
        Some(kid) => ends[*kid as usize],
        None => place + 1,
    }
}

/// For each binder of a program, by its place, the places of its variable, rising.
pub(crate) fn uses_of(alloc: Global, nodes: &[Node]) -> Result<Vec<Vec<u32>>, Memory>
    requires { length nodes.now ≤ MOST_NODES }
    ensures { IfOk result (λ uses. AreUsesBefore nodes.now (length nodes.now) (lists_of uses.items)) }
{
    let mut uses = no_uses(alloc, nodes.len())?;
    for place in 0..nodes.len() as u32 {
        note_node(node_at(nodes, place), place, &mut uses)?;
    }
    Ok(uses)
}

// `count` empty lists.
fn no_uses(alloc: Global, count: usize) -> Result<Vec<Vec<u32>>, Memory>
    ensures { IfOk result (λ uses. lists_of uses.items ≡ replicate count []) }
{
    let mut uses = Vec::with_capacity(alloc, count)?;
    for _ in 0..count {
        uses.push(Vec::new(alloc))?;
    }
    Ok(uses)
}

// Notes the place of a node, where it is a variable.
fn note_node(node: &Node, place: u32, uses: &mut Vec<Vec<u32>>) -> Result<(), Memory>
    ensures { OnOk result (lists_of uses.new.items ≡ noted_sort (lists_of uses.old.items) (sort_of node.now.op) place) }
{
    match &node.op {
        Op::Var(binder) => note(uses, *binder, place),
        _ => Ok(()),
    }
}

// Notes that the variable of a binder stands at a place.
fn note(uses: &mut Vec<Vec<u32>>, binder: u32, place: u32) -> Result<(), Memory>
    ensures { OnOk result (lists_of uses.new.items ≡ noted (lists_of uses.old.items) binder place) }
{
    if (binder as usize) < uses.len() {
        uses[binder as usize].push(place)?;
    }
    Ok(())
}
