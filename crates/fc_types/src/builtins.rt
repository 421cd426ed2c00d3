//! The types of builtins.

ghost use Rattle.std.specs.Prelude.{◌≡◌, false, map};
ghost use Rattle.fc_values.specs.BuiltinTypes.{has_field as any_field, inners, is_field as field_of, lifted};
ghost use Rattle.fc_values.specs.Types.{IntType, BoolType, local_type_of, type_of};
ghost use Rattle.fc_types.specs.declared.faults.TypeKind.TheVariants as kind;
ghost use Rattle.fc_types.specs.Judging.{type_if_all, each_is as all_are, judge_builtin, alike_type, choice_type};
ghost use Rattle.fc_types.specs.Judging.{field_alone_type, field_and_local_type, part_type, type_or, why_not};
ghost use Rattle.fc_types.specs.Views.{Gives};

use crate::faults::TypeKind;
use crate::refusal::TypeRefusal;
use crate::types::{copy_local_type, leaves_to_nine, same_local_type};
use fc_values::{Builtin, LocalTy, Ty, inner};
use std::alloc::Global;

/// The type of a builtin's value, from the types of its arguments.
#[inline(never)]
pub fn builtin_type(alloc: Global, builtin: Builtin, args: &[Ty]) -> Result<Ty, TypeRefusal>
    ensures { Gives result (judge_builtin builtin (map type_of args.now)) }
{
    match builtin {
        Builtin::Add => all_of(args, &LocalTy::Int, 2, LocalTy::Int),
        Builtin::Sub => all_of(args, &LocalTy::Int, 2, LocalTy::Int),
        Builtin::Mul => all_of(args, &LocalTy::Int, 2, LocalTy::Int),
        Builtin::Rise => all_of(args, &LocalTy::Int, 3, LocalTy::Int),
        Builtin::Min => alike(alloc, args),
        Builtin::Max => alike(alloc, args),
        Builtin::Less => compared(args),
        Builtin::Equal => compared(args),
        Builtin::And => all_of(args, &LocalTy::Bool, 2, LocalTy::Bool),
        Builtin::Or => all_of(args, &LocalTy::Bool, 2, LocalTy::Bool),
        Builtin::Not => all_of(args, &LocalTy::Bool, 1, LocalTy::Bool),
        Builtin::Mux => chosen(alloc, args),
        Builtin::Pair => pair(alloc, args),
        Builtin::Fst => first_part(alloc, args),
        Builtin::Snd => second_part(alloc, args),
        Builtin::MinHoodLoc => field_and_local(alloc, args),
        Builtin::MaxHoodLoc => field_and_local(alloc, args),
        Builtin::SumHood => field(args, LocalTy::Int),
        Builtin::AnyHood => field(args, LocalTy::Bool),
        Builtin::AllHood => field(args, LocalTy::Bool),
    }
}

fn is_field(ty: &Ty) -> bool
    ensures { result ≡ field_of (type_of ty.now) }
{
    match ty {
        Ty::Local(_) => false,
        Ty::Field(_) => true,
    }
}

fn has_field(args: &[Ty]) -> bool
    ensures { result ≡ any_field (map type_of args.now) }
{
    match args {
        [] => false,
        [first, rest @ ..] => is_field(first) || has_field(rest),
    }
}

// What an operator gives: a field where one of its arguments is a field.
fn lift(args: &[Ty], ty: LocalTy) -> Ty
    ensures { type_of result ≡ lifted (any_field (map type_of args.now)) (local_type_of ty) }
{
    if has_field(args) {
        Ty::Field(ty)
    } else {
        Ty::Local(ty)
    }
}

fn each_is(args: &[Ty], ty: &LocalTy) -> bool
    ensures { result ≡ all_are (local_type_of ty.now) (inners (map type_of args.now)) }
{
    match args {
        [] => true,
        [first, rest @ ..] => same_local_type(inner(first), ty) && each_is(rest, ty),
    }
}

// `count` arguments, each of one type.
fn all_of(args: &[Ty], each: &LocalTy, count: usize, ty: LocalTy) -> Result<Ty, TypeRefusal>
    ensures { Gives result (type_or kind.Mismatch (any_field (map type_of args.now))
        (type_if_all (local_type_of each.now) count (local_type_of ty) (inners (map type_of args.now)))) }
{
    if args.len() != count {
        return Err(TypeRefusal::Kind(TypeKind::Mismatch));
    }
    if each_is(args, each) {
        Ok(lift(args, ty))
    } else {
        Err(TypeRefusal::Kind(TypeKind::Mismatch))
    }
}

// Two arguments of one type, which is also the result's.
fn alike(alloc: Global, args: &[Ty]) -> Result<Ty, TypeRefusal>
    ensures { Gives result (type_or kind.Mismatch (any_field (map type_of args.now))
        (alike_type (λ t. t) (inners (map type_of args.now)))) }
{
    match args {
        [first, second] => {
            if !same_local_type(inner(first), inner(second)) {
                return Err(TypeRefusal::Kind(TypeKind::Mismatch));
            }
            let ty = copy_local_type(alloc, inner(first))?;
            Ok(lift(args, ty))
        }
        _ => Err(TypeRefusal::Kind(TypeKind::Mismatch)),
    }
}

// Two arguments of one type give a truth value.
fn compared(args: &[Ty]) -> Result<Ty, TypeRefusal>
    ensures { Gives result (type_or kind.Mismatch (any_field (map type_of args.now))
        (alike_type (λ t. BoolType) (inners (map type_of args.now)))) }
{
    match args {
        [first, second] => {
            if !same_local_type(inner(first), inner(second)) {
                return Err(TypeRefusal::Kind(TypeKind::Mismatch));
            }
            Ok(lift(args, LocalTy::Bool))
        }
        _ => Err(TypeRefusal::Kind(TypeKind::Mismatch)),
    }
}

// A truth value and two arguments of one type, which is also the result's.
fn chosen(alloc: Global, args: &[Ty]) -> Result<Ty, TypeRefusal>
    ensures { Gives result (type_or kind.Mismatch (any_field (map type_of args.now))
        (choice_type (inners (map type_of args.now)))) }
{
    match args {
        [condition, first, second] => {
            if !same_local_type(inner(condition), &LocalTy::Bool) {
                return Err(TypeRefusal::Kind(TypeKind::Mismatch));
            }
            if !same_local_type(inner(first), inner(second)) {
                return Err(TypeRefusal::Kind(TypeKind::Mismatch));
            }
            let ty = copy_local_type(alloc, inner(first))?;
            Ok(lift(args, ty))
        }
        _ => Err(TypeRefusal::Kind(TypeKind::Mismatch)),
    }
}

// A pair of at most 8 leaves.
fn pair(alloc: Global, args: &[Ty]) -> Result<Ty, TypeRefusal>
    ensures { Gives result (judge_builtin Builtin.Pair (map type_of args.now)) }
{
    match args {
        [first, second] => {
            if leaves_to_nine(inner(first)) + leaves_to_nine(inner(second)) > 8 {
                return Err(TypeRefusal::Kind(TypeKind::Wide));
            }
            let first = Box::new(alloc, copy_local_type(alloc, inner(first))?)?;
            let second = Box::new(alloc, copy_local_type(alloc, inner(second))?)?;
            Ok(lift(args, LocalTy::Pair(first, second)))
        }
        _ => Err(TypeRefusal::Kind(TypeKind::Mismatch)),
    }
}

fn first_part(alloc: Global, args: &[Ty]) -> Result<Ty, TypeRefusal>
    ensures { Gives result (type_or kind.Mismatch (any_field (map type_of args.now))
        (part_type (λ s t. s) (inners (map type_of args.now)))) }
{
    match args {
        [only] => match inner(only) {
            LocalTy::Pair(first, _) => {
                let ty = copy_local_type(alloc, first)?;
                Ok(lift(args, ty))
            }
            _ => Err(TypeRefusal::Kind(TypeKind::Mismatch)),
        },
        _ => Err(TypeRefusal::Kind(TypeKind::Mismatch)),
    }
}

fn second_part(alloc: Global, args: &[Ty]) -> Result<Ty, TypeRefusal>
    ensures { Gives result (type_or kind.Mismatch (any_field (map type_of args.now))
        (part_type (λ s t. t) (inners (map type_of args.now)))) }
{
    match args {
        [only] => match inner(only) {
            LocalTy::Pair(_, second) => {
                let ty = copy_local_type(alloc, second)?;
                Ok(lift(args, ty))
            }
            _ => Err(TypeRefusal::Kind(TypeKind::Mismatch)),
        },
        _ => Err(TypeRefusal::Kind(TypeKind::Mismatch)),
    }
}

// A field and a local value of one type, which is also the result's.
fn field_and_local(alloc: Global, args: &[Ty]) -> Result<Ty, TypeRefusal>
    ensures { Gives result (type_or kind.Mismatch false (field_and_local_type (map type_of args.now))) }
{
    match args {
        [first, second] => match (first, second) {
            (Ty::Field(first), Ty::Local(second)) if same_local_type(first, second) => {
                Ok(Ty::Local(copy_local_type(alloc, first)?))
            }
            _ => Err(TypeRefusal::Kind(TypeKind::Mismatch)),
        },
        _ => Err(TypeRefusal::Kind(TypeKind::Mismatch)),
    }
}

// A field of a type, which is given.
fn field(args: &[Ty], ty: LocalTy) -> Result<Ty, TypeRefusal>
    ensures { Gives result (type_or kind.Mismatch false (field_alone_type (local_type_of ty) (map type_of args.now))) }
{
    match args {
        [only] => match only {
            Ty::Field(inner) if same_local_type(inner, &ty) => Ok(Ty::Local(ty)),
            _ => Err(TypeRefusal::Kind(TypeKind::Mismatch)),
        },
        _ => Err(TypeRefusal::Kind(TypeKind::Mismatch)),
    }
}
