//! The law of known bounds.

ghost use Rattle.bound_texts.specs.KnownBounds.{ExactHasTextOfValue, KnownHasTextOfValue};

/// A bound in which one value is left has the text of this value.
pub fn known_bounds_read_as_values()
    ensures exact { ExactHasTextOfValue }
    ensures known { KnownHasTextOfValue }
{}
