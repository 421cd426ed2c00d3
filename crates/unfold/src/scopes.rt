//! The names in scope.

ghost use Rattle.std.specs.Prelude.{◌≡◌, ◌++◌, [], ◌∷◌, OnOk, map};
ghost use Rattle.fc_syntax.specs.Terms.{parameter_of};
ghost use Rattle.fc_values.specs.Types.{type_of};
ghost use Rattle.unfold.specs.Unfolding.{binder_of, variable_term};
ghost use Rattle.unfold.specs.Writing.{argument_of, arguments, found_term, scope_of};

use fc_syntax::Param;
use fc_types::Known;
use fc_values::{LocalTy, Memory, Name, Ty};
use std::mem::replace;

/// An argument of a call: the place of the `let` that binds it, and its type.
#[derive(Drop)]
pub struct Argument {
    pub place: u32,
    pub ty: Ty,
}

/// Adds an argument, and takes its type.
#[inline(never)]
pub fn give(given: &mut Vec<Argument>, place: u32, ty: &mut Ty) -> Result<(), Memory>
    ensures { OnOk result (map argument_of given.new.items
        ≡ map argument_of given.old.items ++ (place, type_of ty.old) ∷ []) }
{
    let ty = replace(ty, Ty::Local(LocalTy::Int));
    given.push(Argument { place, ty })?;
    Ok(())
}

/// The names in scope, each with the place of the node that binds it and its type: those of binders, the nearest first,
/// and then the parameters of the function with its arguments.
#[derive(Clone, Copy)]
pub enum Scope<'a> {
    Arguments(&'a [Param], &'a [Argument]),
    Bind(&'a Name, u32, &'a Ty, &'a Scope<'a>),
}

/// What an expression is read in: what the program declares, how many of its functions are seen, and the names in
/// scope.
#[derive(Clone, Copy)]
pub struct Surroundings<'a, 'k> {
    pub known: &'a Known<'k>,
    pub visible: usize,
    pub scope: &'a Scope<'a>,
}

/// The place and the type of the nearest binder or parameter with a name.
pub fn lookup<'a>(scope: &Scope<'a>, name: &Name) -> Option<(u32, &'a Ty)>
    ensures { variable_term (binder_of name.now.text.items (scope_of scope.now)) ≡ found_term result }
{
    match scope {
        Scope::Arguments(params, given) => lookup_argument(params, given, name),
        Scope::Bind(bound, place, ty, rest) => {
            if name.text.as_slice() == bound.text.as_slice() {
                Some((*place, ty))
            } else {
                lookup(rest, name)
            }
        }
    }
}

// The place and the type of an argument, by the name of its parameter.
fn lookup_argument<'a>(
    params: &[Param],
    given: &'a [Argument],
    name: &Name,
) -> Option<(u32, &'a Ty)>
    ensures { variable_term (binder_of name.now.text.items
        (arguments (map argument_of given.now) (map parameter_of params.now))) ≡ found_term result }
{
    match given {
        [] => None,
        [argument, given @ ..] => match params {
            [] => None,
            [param, params @ ..] => {
                if name.text.as_slice() == param.name.text.as_slice() {
                    Some((argument.place, &argument.ty))
                } else {
                    lookup_argument(params, given, name)
                }
            }
        },
    }
}
