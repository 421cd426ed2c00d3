//! Laws of the definitions.

ghost use Rattle.fc_types.specs.Laws.{OneType, OneFaultIn, TypeOrFault, NoTypeWithFault, TypedOrAtFault};
ghost use Rattle.fc_types.specs.Laws.{NotTypedAtFault, OneFirstFault};

/// An expression has one type or one first fault, and not both.
pub fn one_type()
    ensures one_type { OneType }
    ensures one_fault { OneFaultIn }
    ensures either { TypeOrFault }
    ensures not_both { NoTypeWithFault }
{}

/// A program is typed exactly where it has no first fault.
pub fn typed_or_at_fault()
    ensures either { TypedOrAtFault }
    ensures not_both { NotTypedAtFault }
{}

/// A program has one first fault at most.
pub fn one_first_fault()
    ensures { OneFirstFault }
{}
