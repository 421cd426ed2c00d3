//! The law of builtins.

ghost use Rattle.value_bounds.specs.BoundBuiltins.{BuiltinsLie};

/// What a builtin gives for values in bounds lies in the bound that it gives for these bounds.
pub fn builtins_lie()
    ensures { BuiltinsLie }
{}
