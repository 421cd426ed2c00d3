//! How many words a value takes.

ghost use Rattle.std.specs.Prelude.{◌≡◌, ◌≤◌};
ghost use Rattle.fc_values.specs.Types.{leaves, local_type_of};

use fc_values::LocalTy;

/// The number of words of a value of a type: one for each leaf.
pub fn width(ty: &LocalTy) -> usize
    requires { leaves (local_type_of ty.now) ≤ usize.MAX }
    ensures { result ≡ leaves (local_type_of ty.now) }
{
    match ty {
        LocalTy::Int | LocalTy::Bool => 1,
        LocalTy::Pair(first, second) => width(first) + width(second),
    }
}
