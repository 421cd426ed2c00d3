//! The types of expressions.

ghost use Rattle.std.specs.Prelude.{◌≡◌, IfOk, is_some, map, nat_le};
ghost use Rattle.fc_syntax.specs.Terms.{ApplyTerm, CallTerm, IfTerm, LetTerm, NbrTerm, RepTerm, ShareTerm};
ghost use Rattle.fc_syntax.specs.Terms.{MoreTerms, NoTerms, parameter_of, term_of, terms};
ghost use Rattle.fc_values.specs.Types.{type_of};
ghost use Rattle.fc_types.specs.Before.{function_named, input_named, type_in};
ghost use Rattle.fc_types.specs.Faults.{shared_type as shared};
ghost use Rattle.fc_types.specs.Judging.{judge as judgement, judge_all as judgements, judge_call as judge_called};
ghost use Rattle.fc_types.specs.Judging.{judge_evolving, judge_if, judge_nbr as judge_shared, judge_number};
ghost use Rattle.fc_types.specs.Judging.{judge_sense, judge_variable};
ghost use Rattle.fc_types.specs.Judging.{same_types as same_rows, unless_bound};
ghost use Rattle.fc_types.specs.Views.{Gives, GivesAll, known_of, scope_of};

use crate::builtins::builtin_type;
use crate::faults::TypeKind;
use crate::known::Known;
use crate::refusal::TypeRefusal;
use crate::scopes::{Scope, lookup};
use crate::types::{copy_local_type, copy_type, same_local_type, same_types};
use fc_syntax::{Expr, Param};
use fc_values::{Builtin, InputTy, LocalTy, Memory, Name, Ty};
use std::alloc::Global;

/// The type of an expression, or its first fault. Chains of operators may be thousands of levels deep, so each form has
/// a function of its own, and a level takes little of the stack.
#[cycle(judge)]
pub fn judge(
    alloc: Global,
    known: &Known<'_>,
    scope: &Scope<'_>,
    expr: &Expr,
) -> Result<Ty, TypeRefusal>
    ensures { Gives result (judgement (known_of known.now) (scope_of scope.now) (term_of expr.now)) }
{
    match expr {
        Expr::Int(n) => number_type(*n, known.ceiling),
        Expr::Truth(_) => Ok(Ty::Local(LocalTy::Bool)),
        Expr::Var(name) => variable_type(alloc, &*scope, name),
        Expr::Uid => Ok(Ty::Local(LocalTy::Int)),
        Expr::NbrLink => Ok(Ty::Field(LocalTy::Int)),
        Expr::Sense(name) => sense_type(&*known, name),
        Expr::Apply(Builtin::Not, args) => judge_nots(alloc, &*known, &*scope, args),
        Expr::Apply(builtin, args) => {
            let [arg] = args.as_slice() else {
                return judge_apply(alloc, &*known, &*scope, *builtin, args);
            };
            judge_one(alloc, &*known, &*scope, *builtin, arg)
        }
        Expr::Nbr(inner) => judge_nbr(alloc, &*known, &*scope, inner),
        Expr::Rep(first, name, body) => judge_rep(alloc, &*known, &*scope, first, &*name, body),
        Expr::Share(first, name, body) => judge_share(alloc, &*known, &*scope, first, &*name, body),
        Expr::If(condition, then, other) => judge_branches(
            alloc, &*known, &*scope, condition, then, other,
        ),
        Expr::Let(name, bound, body) => judge_let(alloc, &*known, &*scope, &*name, bound, body),
        Expr::Call(name, args) => judge_call(alloc, &*known, &*scope, &*name, args),
    }
}

// A chain of `not`, which may be thousands of levels deep: `not` of a `not` has the type or the fault of the inner one.
#[cycle(judge)]
#[inline(never)]
fn judge_nots(
    alloc: Global,
    known: &Known<'_>,
    scope: &Scope<'_>,
    args: &[Expr],
) -> Result<Ty, TypeRefusal>
    ensures { Gives result (judgement (known_of known.now) (scope_of scope.now)
        (ApplyTerm Builtin.Not (terms (map term_of args.now)))) }
{
    let mut last = args;
    'nots: while let [Expr::Apply(Builtin::Not, inner)] = last {
        last = inner;
    }
    judge_apply(alloc, &*known, &*scope, Builtin::Not, last)
}

#[cycle(judge)]
#[inline(never)]
fn judge_one(
    alloc: Global,
    known: &Known<'_>,
    scope: &Scope<'_>,
    builtin: Builtin,
    arg: &Expr,
) -> Result<Ty, TypeRefusal>
    ensures { Gives result (judgement (known_of known.now) (scope_of scope.now)
        (ApplyTerm builtin (MoreTerms (term_of arg.now) NoTerms))) }
{
    let types = [judge(alloc, &*known, &*scope, &*arg)?];
    builtin_type(alloc, builtin, &types)
}

#[cycle(judge)]
#[inline(never)]
fn judge_apply(
    alloc: Global,
    known: &Known<'_>,
    scope: &Scope<'_>,
    builtin: Builtin,
    args: &[Expr],
) -> Result<Ty, TypeRefusal>
    ensures { Gives result (judgement (known_of known.now) (scope_of scope.now)
        (ApplyTerm builtin (terms (map term_of args.now)))) }
{
    let types = judge_all(alloc, &*known, &*scope, &*args)?;
    builtin_type(alloc, builtin, &types)
}

#[cycle(judge)]
#[inline(never)]
fn judge_nbr(
    alloc: Global,
    known: &Known<'_>,
    scope: &Scope<'_>,
    inner: &Expr,
) -> Result<Ty, TypeRefusal>
    ensures { Gives result (judgement (known_of known.now) (scope_of scope.now) (NbrTerm (term_of inner.now))) }
{
    nbr_type(judge(alloc, &*known, &*scope, &*inner)?)
}

#[cycle(judge)]
#[inline(never)]
fn judge_call(
    alloc: Global,
    known: &Known<'_>,
    scope: &Scope<'_>,
    name: &Name,
    args: &[Expr],
) -> Result<Ty, TypeRefusal>
    ensures { Gives result (judgement (known_of known.now) (scope_of scope.now)
        (CallTerm name.now.text.items (terms (map term_of args.now)))) }
{
    let types = judge_all(alloc, &*known, &*scope, &*args)?;
    call_type(alloc, &*known, &*name, &types)
}

#[cycle(judge)]
#[inline(never)]
fn judge_rep<'a>(
    alloc: Global,
    known: &Known<'_>,
    scope: &'a Scope<'a>,
    first: &Expr,
    name: &'a Name,
    body: &Expr,
) -> Result<Ty, TypeRefusal>
    ensures { Gives result (judgement (known_of known.now) (scope_of scope.now)
        (RepTerm (term_of first.now) name.now.text.items (term_of body.now))) }
{
    let start = judge(alloc, known, scope, first)?;
    let inner = Scope::Bind(&*name, &start, &*scope);
    let end = judge(alloc, known, &inner, body)?;
    evolving_type(scope, name, start, end)
}

#[cycle(judge)]
#[inline(never)]
fn judge_share<'a>(
    alloc: Global,
    known: &Known<'_>,
    scope: &'a Scope<'a>,
    first: &Expr,
    name: &'a Name,
    body: &Expr,
) -> Result<Ty, TypeRefusal>
    ensures { Gives result (judgement (known_of known.now) (scope_of scope.now)
        (ShareTerm (term_of first.now) name.now.text.items (term_of body.now))) }
{
    let start = judge(alloc, known, scope, first)?;
    let shared = shared_type(alloc, &start)?;
    let inner = Scope::Bind(&*name, &shared, &*scope);
    let end = judge(alloc, known, &inner, body)?;
    evolving_type(scope, name, start, end)
}

#[cycle(judge)]
#[inline(never)]
fn judge_branches(
    alloc: Global,
    known: &Known<'_>,
    scope: &Scope<'_>,
    condition: &Expr,
    then: &Expr,
    other: &Expr,
) -> Result<Ty, TypeRefusal>
    ensures { Gives result (judgement (known_of known.now) (scope_of scope.now)
        (IfTerm (term_of condition.now) (term_of then.now) (term_of other.now))) }
{
    let condition = judge(alloc, known, scope, condition)?;
    let then = judge(alloc, known, scope, then)?;
    let other = judge(alloc, known, scope, other)?;
    if_type(condition, then, other)
}

#[cycle(judge)]
#[inline(never)]
fn judge_let<'a>(
    alloc: Global,
    known: &Known<'_>,
    scope: &'a Scope<'a>,
    name: &'a Name,
    bound: &Expr,
    body: &Expr,
) -> Result<Ty, TypeRefusal>
    ensures { Gives result (judgement (known_of known.now) (scope_of scope.now)
        (LetTerm name.now.text.items (term_of bound.now) (term_of body.now))) }
{
    let bound = judge(alloc, known, scope, bound)?;
    let inner = Scope::Bind(&*name, &bound, &*scope);
    let ty = judge(alloc, known, &inner, body)?;
    let_type(scope, name, ty)
}

// The types of expressions in a row, or their first fault.
#[cycle(judge)]
#[inline(always)]
fn judge_all(
    alloc: Global,
    known: &Known<'_>,
    scope: &Scope<'_>,
    args: &[Expr],
) -> Result<Vec<Ty>, TypeRefusal>
    ensures { GivesAll result (judgements (known_of known.now) (scope_of scope.now) (terms (map term_of args.now))) }
{
    let mut types = Vec::with_capacity(alloc, args.len())?;
    for arg in args {
        types.push(judge(alloc, known, scope, arg)?)?;
    }
    Ok(types)
}

fn number_type(n: u32, ceiling: u32) -> Result<Ty, TypeRefusal>
    ensures { Gives result (judge_number (nat_le n ceiling)) }
{
    if n <= ceiling {
        Ok(Ty::Local(LocalTy::Int))
    } else {
        Err(TypeRefusal::Kind(TypeKind::Literal))
    }
}

#[inline(never)]
fn variable_type(alloc: Global, scope: &Scope<'_>, name: &Name) -> Result<Ty, TypeRefusal>
    ensures { Gives result (judge_variable (type_in name.now.text.items (scope_of scope.now))) }
{
    match lookup(scope, name) {
        Some(ty) => Ok(copy_type(alloc, ty)?),
        None => Err(TypeRefusal::Kind(TypeKind::Unknown)),
    }
}

#[inline(never)]
fn sense_type(known: &Known<'_>, name: &Name) -> Result<Ty, TypeRefusal>
    ensures { Gives result (judge_sense (input_named name.now.text.items (known_of known.now).inputs)) }
{
    match known.input(&name.text) {
        Some(InputTy::Truth) => Ok(Ty::Local(LocalTy::Bool)),
        Some(InputTy::Whole(_, _)) => Ok(Ty::Local(LocalTy::Int)),
        None => Err(TypeRefusal::Kind(TypeKind::Unknown)),
    }
}

#[inline(never)]
fn nbr_type(ty: Ty) -> Result<Ty, TypeRefusal>
    ensures { Gives result (judge_shared (type_of ty)) }
{
    match ty {
        Ty::Local(ty) => Ok(Ty::Field(ty)),
        Ty::Field(_) => Err(TypeRefusal::Kind(TypeKind::NotLocal)),
    }
}

/// The type of the variable of a `share`, from that of its first expression.
pub fn shared_type(alloc: Global, start: &Ty) -> Result<Ty, Memory>
    ensures { IfOk result (λ t. type_of t ≡ shared (type_of start.now)) }
{
    match start {
        Ty::Local(ty) => Ok(Ty::Field(copy_local_type(alloc, ty)?)),
        Ty::Field(ty) => Ok(Ty::Field(copy_local_type(alloc, ty)?)),
    }
}

fn is_bound(scope: &Scope<'_>, name: &Name) -> bool
    ensures { result ≡ is_some (type_in name.now.text.items (scope_of scope.now)) }
{
    lookup(scope, name).is_some()
}

// The type of a `rep` or `share`, from those of its first expression and its body.
#[inline(never)]
fn evolving_type(scope: &Scope<'_>, name: &Name, start: Ty, end: Ty) -> Result<Ty, TypeRefusal>
    ensures { Gives result (judge_evolving (type_in name.now.text.items (scope_of scope.now)) (type_of start)
        (type_of end)) }
{
    match (start, end) {
        (Ty::Local(start), Ty::Local(end)) => {
            if !same_local_type(&start, &end) {
                return Err(TypeRefusal::Kind(TypeKind::Mismatch));
            }
            let_type(scope, name, Ty::Local(start))
        }
        _ => Err(TypeRefusal::Kind(TypeKind::NotLocal)),
    }
}

// The type of a binder, whose name may not be bound already.
fn let_type(scope: &Scope<'_>, name: &Name, ty: Ty) -> Result<Ty, TypeRefusal>
    ensures { Gives result (unless_bound (type_in name.now.text.items (scope_of scope.now)) (type_of ty)) }
{
    if is_bound(scope, name) {
        Err(TypeRefusal::Kind(TypeKind::Twice))
    } else {
        Ok(ty)
    }
}

#[inline(never)]
fn if_type(condition: Ty, then: Ty, other: Ty) -> Result<Ty, TypeRefusal>
    ensures { Gives result (judge_if (type_of condition) (type_of then) (type_of other)) }
{
    match (condition, then, other) {
        (Ty::Local(condition), Ty::Local(then), Ty::Local(other)) => {
            if same_local_type(&condition, &LocalTy::Bool) && same_local_type(&then, &other) {
                Ok(Ty::Local(then))
            } else {
                Err(TypeRefusal::Kind(TypeKind::Mismatch))
            }
        }
        _ => Err(TypeRefusal::Kind(TypeKind::NotLocal)),
    }
}

#[inline(never)]
fn call_type(alloc: Global, known: &Known<'_>, name: &Name, types: &[Ty]) -> Result<Ty, TypeRefusal>
    ensures { Gives result (judge_called (function_named name.now.text.items (known_of known.now).functions)
        (map type_of types.now)) }
{
    let Some(function) = known.function(&name.text) else {
        return Err(TypeRefusal::Kind(TypeKind::Unknown));
    };
    if types.len() != function.params.len() {
        return Err(TypeRefusal::Kind(TypeKind::Count));
    }
    if !are_given(types, function.params) {
        return Err(TypeRefusal::Kind(TypeKind::Mismatch));
    }
    Ok(copy_type(alloc, function.result)?)
}

// Whether arguments have the types of parameters.
fn are_given(types: &[Ty], params: &[Param]) -> bool
    ensures { result ≡ same_rows (map type_of types.now) (map (λ p. p.type) (map parameter_of params.now)) }
{
    match types {
        [] => params.is_empty(),
        [ty, types @ ..] => match params {
            [] => false,
            [param, params @ ..] => same_types(ty, &param.ty) && are_given(types, params),
        },
    }
}
