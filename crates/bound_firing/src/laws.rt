//! The law of firings.

ghost use Rattle.bound_firing.specs.Firing.{FiringsLand};

/// A firing that sees what lies in bounds gives what lies in the bounds that a firing over them gives.
pub fn firings_land()
    ensures { FiringsLand }
{}
