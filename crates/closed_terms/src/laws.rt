//! Laws of the definitions.

ghost use Rattle.closed_terms.specs.Parts.{PartsSolve};

/// What solves a closed term as a program of its own solves it at its place.
pub fn parts_solve()
    ensures { PartsSolve }
{}
