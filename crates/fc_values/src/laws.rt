//! Laws of the definitions.

ghost use Rattle.fc_values.specs.Laws.{BuiltinHasValue, EqualSaysSame, GreatestIsGreatest, LeastIsLeast, ReadsLocal, ReadsPointwise, ReadsRestricted, ReadsWithEntry};

/// Arguments that fit a typing rule of a builtin have a value, which fits the rule's type.
pub fn builtin_has_value()
    ensures { BuiltinHasValue }
{}

/// Among values of one form, the least is one of them and at most each, and the greatest one of them and at least each.
pub fn least_and_greatest()
    ensures least { LeastIsLeast }
    ensures greatest { GreatestIsGreatest }
{}

/// `==` of two values of one form says that they are equal.
pub fn equal_says_same()
    ensures { EqualSaysSame }
{}

/// The value at a device of a field with a new entry, of a restricted field, and of a field that an operator gives.
pub fn fields_are_read()
    ensures entry { ReadsWithEntry }
    ensures restricted { ReadsRestricted }
    ensures pointwise { ReadsPointwise }
    ensures local { ReadsLocal }
{}
