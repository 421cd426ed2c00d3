//! Laws of the definitions.

ghost use Rattle.fragment_check.specs.Laws.{PatternsHaveShapes, ReasonsHaveNoShape, LevelsOfBodies};

/// A well-typed body whose pattern is found has the shape that the pattern names: guards by the variable of one binder,
/// or a least of what is heard that grows.
pub fn patterns_have_shapes()
    ensures { PatternsHaveShapes }
{}

/// A body for which a reason is found has the shape of no pattern: for well-typed bodies, a reason is found exactly
/// where no pattern has the shape.
pub fn reasons_have_no_shape()
    ensures { ReasonsHaveNoShape }
{}

/// The row of the table of levels for a body that has its variable and isn't `nested`: the greatest of `b + 1` and the
/// levels of its parts, where `b` is the level of the branch.
pub fn levels_of_bodies()
    ensures { LevelsOfBodies }
{}
