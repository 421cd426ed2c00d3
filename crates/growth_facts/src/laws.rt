//! Laws of the definitions.

ghost use Rattle.growth_facts.specs.Laws.{GrowthLaw};

/// The growth law. Where an expression of a body has the growth `c`, and `v` is heard of the variable at a neighbour,
/// the entry there is at least the lesser of the ceiling and `v + c`. Raising `v` never lowers the entry, and the same
/// `v` gives the same entry. A pair counts as the integer that leads it.
pub fn growth_law()
    ensures { GrowthLaw }
{}
