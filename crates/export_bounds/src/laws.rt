//! The law of these bounds.

ghost use Rattle.export_bounds.specs.Laws.{ExportsHold};

/// A well-typed export lies in its bound, what lies in one of two bounds lies in that of either, and it is decidable
/// whether two bounds are the same.
pub fn exports_hold()
    ensures { ExportsHold }
{}
