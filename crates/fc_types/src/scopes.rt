//! The parameters and binders in scope.

ghost use Rattle.std.specs.Prelude.{◌≡◌, map};
ghost use Rattle.std.specs.Option.{option_map};
ghost use Rattle.fc_values.specs.Types.{type_of};
ghost use Rattle.fc_syntax.specs.Terms.{parameter_of};
ghost use Rattle.fc_types.specs.Before.{type_in};
ghost use Rattle.fc_types.specs.Views.{scope_of};

use fc_syntax::Param;
use fc_values::{Name, Ty};

/// The names in scope with their types: those of binders, the nearest first, and then the parameters.
#[derive(Clone, Copy)]
pub enum Scope<'a> {
    Params(&'a [Param]),
    Bind(&'a Name, &'a Ty, &'a Scope<'a>),
}

/// The type of the nearest binder or parameter with a name.
pub fn lookup<'a>(scope: &Scope<'a>, name: &Name) -> Option<&'a Ty>
    ensures { option_map (λ t. type_of t.now) result ≡ type_in name.now.text.items (scope_of scope.now) }
{
    match scope {
        Scope::Params(params) => lookup_parameter(params, name),
        Scope::Bind(bound, ty, rest) => {
            if name.text.as_slice() == bound.text.as_slice() {
                Some(ty)
            } else {
                lookup(rest, name)
            }
        }
    }
}

/// The type of a parameter.
pub fn lookup_parameter<'a>(params: &'a [Param], name: &Name) -> Option<&'a Ty>
    ensures { option_map (λ t. type_of t.now) result ≡ type_in name.now.text.items (map parameter_of params.now) }
{
    match params {
        [] => None,
        [first, rest @ ..] => {
            if name.text.as_slice() == first.name.text.as_slice() {
                Some(&first.ty)
            } else {
                lookup_parameter(rest, name)
            }
        }
    }
}
