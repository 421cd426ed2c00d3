//! What a node sees: the aligned exports, and the binders in scope, whose values stand among the words.

ghost use Rattle.std.specs.Prelude.{◌≡◌, ℕ, ◌+◌, ◌<◌, ◌≤◌, List, IsSome, Some, length};
ghost use Rattle.fc_values.specs.BuiltinTypes.{is_field as has_devices};
ghost use Rattle.fc_values.specs.Types.{type_of};
ghost use Rattle.fc_nodes.specs.Typing.{type_at};
ghost use Rattle.alignment.specs.References.{numbers_in};
ghost use Rattle.scope_columns.specs.Scopes.{AreAligned, IsAligned, StandBelow};
ghost use Rattle.scope_columns.specs.Scopes.{binder_type, binder_words, devices_in, types_in, vars_in};
ghost use Rattle.alignment.specs.Scopes.{variable_at};
ghost use Rattle.scope_columns.specs.Words.{row_of, value_in};

use alignment::Env;
use fc_values::{LocalTy, Ty};

/// A binder: its place, and where its value stands among the words. A field is over the device and those neighbours
/// that were aligned where it was bound.
#[derive(Clone, Copy)]
pub struct Binder<'a, 'b> {
    pub place: u32,
    pub at: usize,
    pub ty: &'a LocalTy,
    pub is_field: bool,
    pub env: &'a Env<'b>,
}

/// The binders in scope, the nearest first.
#[derive(Clone, Copy)]
pub enum Scope<'a, 'b> {
    Empty,
    Bind(Binder<'a, 'b>, &'a Scope<'a, 'b>),
}

/// What a node sees: the exports that are aligned there, the row of the device itself in a field over them, and the
/// binders in scope.
#[derive(Clone, Copy)]
pub struct Sight<'a, 'b> {
    pub env: &'a Env<'b>,
    pub own: usize,
    pub vars: &'a Scope<'a, 'b>,
}

/// Whether a type is one of fields.
pub fn is_field(ty: &Ty) -> bool
    ensures { result ≡ has_devices (type_of ty.now) }
{
    match ty {
        Ty::Local(_) => false,
        Ty::Field(_) => true,
    }
}

/// The row of a device in a field over it and its aligned neighbours.
pub fn own_row(env: &Env<'_>, device: u32) -> usize
    ensures { result ≡ row_of device (numbers_in env.now) }
{
    let near = env.near.as_slice();
    let mut row = 0;
    for n in near {
        if device < n.device {
            return row;
        }
        row += 1;
    }
    row
}

/// The binder that a variable names.
pub fn lookup<'a, 'b>(vars: &Scope<'a, 'b>, binder: u32) -> Binder<'a, 'b>
    requires { IsSome (type_at binder (types_in vars.now)) }
    ensures value { (d : ℕ) (ws : List ℕ) → variable_at binder (vars_in d ws vars.now)
        ≡ Some (value_in ws (binder_type result) (devices_in d result.env.now) result.at) }
    ensures ty { type_at binder (types_in vars.now) ≡ Some (binder_type result) }
    ensures aligned { (d : ℕ) (ns : List ℕ) → AreAligned d ns vars.now
        → IsAligned d ns (binder_type result) (devices_in d result.env.now) }
    ensures below { (d n : ℕ) → StandBelow d n vars.now → result.at + binder_words d result ≤ n }
{
    match vars {
        Scope::Empty => unreachable!(),
        Scope::Bind(bound, rest) => {
            if bound.place == binder {
                *bound
            } else {
                lookup(rest, binder)
            }
        }
    }
}
