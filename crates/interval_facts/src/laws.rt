//! Laws of the definitions.

ghost use Rattle.interval_facts.specs.Laws.{SolutionsLieInRanges};

/// A field that solves a program on a network lies in the ranges of the program's nodes, at each node outside the first
/// values of `rep` and `share`: the map on which it rests there has its values in the node's range.
pub fn solutions_lie_in_ranges()
    ensures { SolutionsLieInRanges }
{}
