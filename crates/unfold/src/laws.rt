//! Laws of the definitions.

ghost use Rattle.unfold.specs.Laws.{NodesAreCounted, NodesAreMain, ProgramsUnfold, UnfoldingIsProgram};

/// The nodes of a typed program are well-formed and well-typed, and their term is `main`, unfolded.
pub fn unfolding_is_program()
    ensures program { UnfoldingIsProgram }
    ensures main { NodesAreMain }
{}

/// The nodes of a program are as many as are counted without making them.
pub fn nodes_are_counted()
    ensures { NodesAreCounted }
{}

/// A typed program of at most 2,048 nodes unfolds to a program of nodes.
pub fn programs_unfold()
    ensures { ProgramsUnfold }
{}
