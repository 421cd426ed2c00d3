//! A law of the definitions.

ghost use Rattle.bound_rounds.specs.Rounds.{RoundsAreLocal};

/// What a round makes of a device depends on its own bound and those of its neighbours alone.
pub fn rounds_are_local()
    ensures { RoundsAreLocal }
{}
