//! Writing the nodes of expressions in preorder.

ghost use Rattle.std.specs.Prelude.{◌≡◌, ◌≤◌, ◌<◌, ◌+◌, ◌^◌, ◌++◌, [], ◌∷◌, OnOk, length, map};
ghost use Rattle.fc_syntax.specs.Terms.{ApplyTerm, CallTerm, IfTerm, LetTerm, NbrTerm, RepTerm, ShareTerm, MoreTerms, NoTerms, term_of, terms};
ghost use Rattle.fc_values.specs.Types.{type_of};
ghost use Rattle.fc_nodes.specs.Terms.{places as places_of, view_of};
ghost use Rattle.fc_nodes.specs.Typing.{types_of};
ghost use Rattle.fc_types.specs.Views.{known_of};
ghost use Rattle.unfold.specs.Counting.{size_of};
ghost use Rattle.unfold.specs.Nodes.{all_listed};
ghost use Rattle.unfold.specs.Views.{counted};
ghost use Rattle.unfold.specs.Writing.{HasRoom, IsLonger, IsWritten, all_nodes_in, all_unfolded_by, argument_of, call_within, call_in, call_nodes_in, nodes_in, surroundings_of, unfolded_by};

use crate::names::{find, last_body};
use crate::putting::{
    begin_node, end_apply, end_builtin, end_if, end_nbr, end_two, give_shared, put_input,
    put_links, put_number, put_truth, put_uid, put_untyped, put_variable,
};
use crate::scopes::{Argument, Scope, Surroundings, give};
use fc_nodes::{Node, Op};
use fc_syntax::Expr;
use fc_types::Known;
use fc_values::{Builtin, LocalTy, Memory, Name, Ty};
use std::alloc::Global;

/// The nodes of an expression behind others, with its type. Expressions may be thousands of levels deep, so each form
/// has a function of its own, types go to a place of the caller, and a level takes little of the stack.
#[cycle(write)]
pub fn write(
    alloc: Global,
    around: &Surroundings<'_, '_>,
    expr: &Expr,
    nodes: &mut Vec<Node>,
    ty: &mut Ty,
) -> Result<(), Memory>
    requires inputs { length (known_of around.now.known.now).inputs < 2 ^ 32 }
    requires room { HasRoom nodes.old.items (nodes_in (surroundings_of around.now) (term_of expr.now)) }
    ensures long { OnOk result (IsLonger nodes.old.items nodes.new.items
        (nodes_in (surroundings_of around.now) (term_of expr.now))) }
    ensures written { OnOk result (IsWritten nodes.old.items nodes.new.items ty.new
        (unfolded_by (surroundings_of around.now) (length nodes.old.items) (term_of expr.now))) }
{
    match expr {
        Expr::Int(n) => put_number(alloc, nodes, *n, ty),
        Expr::Truth(b) => put_truth(alloc, nodes, *b, ty),
        Expr::Var(name) => put_variable(alloc, around.scope, name, nodes, ty),
        Expr::Uid => put_uid(alloc, nodes, ty),
        Expr::NbrLink => put_links(alloc, nodes, ty),
        Expr::Sense(name) => put_input(alloc, around.known, name, nodes, ty),
        Expr::Apply(builtin, args) if args.len() == 1 => {
            write_one(alloc, around, *builtin, args, nodes, ty)
        }
        Expr::Apply(builtin, args) => write_apply(alloc, around, *builtin, args, nodes, ty),
        Expr::Nbr(inner) => write_nbr(alloc, around, inner, nodes, ty),
        Expr::Rep(first, name, body) => write_rep(alloc, around, first, name, body, nodes, ty),
        Expr::Share(first, name, body) => write_share(alloc, around, first, name, body, nodes, ty),
        Expr::If(condition, then, other) => {
            write_if(alloc, around, condition, then, other, nodes, ty)
        }
        Expr::Let(name, bound, body) => write_let(alloc, around, name, bound, body, nodes, ty),
        Expr::Call(name, args) if args.is_empty() => {
            write_bare_call(alloc, around.known, around.visible, name, nodes, ty)
        }
        Expr::Call(name, args) => write_call(alloc, around, name, args, nodes, ty),
    }
}

// A builtin of one argument.
#[cycle(write)]
#[inline(never)]
fn write_one(
    alloc: Global,
    around: &Surroundings<'_, '_>,
    builtin: Builtin,
    args: &[Expr],
    nodes: &mut Vec<Node>,
    ty: &mut Ty,
) -> Result<(), Memory>
    requires one { length args.now ≡ 1 }
    requires inputs { length (known_of around.now.known.now).inputs < 2 ^ 32 }
    requires room { HasRoom nodes.old.items
        (nodes_in (surroundings_of around.now) (ApplyTerm builtin (terms (map term_of args.now)))) }
    ensures long { OnOk result (IsLonger nodes.old.items nodes.new.items
        (nodes_in (surroundings_of around.now) (ApplyTerm builtin (terms (map term_of args.now))))) }
    ensures written { OnOk result (IsWritten nodes.old.items nodes.new.items ty.new
        (unfolded_by (surroundings_of around.now) (length nodes.old.items)
        (ApplyTerm builtin (terms (map term_of args.now))))) }
{
    let place = begin_node(alloc, nodes)?;
    write(alloc, around, &args[0], nodes, ty)?;
    end_builtin(alloc, nodes, place, builtin, ty)?;
    Ok(())
}

// A builtin.
#[cycle(write)]
#[inline(never)]
fn write_apply(
    alloc: Global,
    around: &Surroundings<'_, '_>,
    builtin: Builtin,
    args: &[Expr],
    nodes: &mut Vec<Node>,
    ty: &mut Ty,
) -> Result<(), Memory>
    requires inputs { length (known_of around.now.known.now).inputs < 2 ^ 32 }
    requires room { HasRoom nodes.old.items
        (nodes_in (surroundings_of around.now) (ApplyTerm builtin (terms (map term_of args.now)))) }
    ensures long { OnOk result (IsLonger nodes.old.items nodes.new.items
        (nodes_in (surroundings_of around.now) (ApplyTerm builtin (terms (map term_of args.now))))) }
    ensures written { OnOk result (IsWritten nodes.old.items nodes.new.items ty.new
        (unfolded_by (surroundings_of around.now) (length nodes.old.items)
        (ApplyTerm builtin (terms (map term_of args.now))))) }
{
    let place = begin_node(alloc, nodes)?;
    let mut places = Vec::with_capacity(alloc, args.len())?;
    let mut types = Vec::with_capacity(alloc, args.len())?;
    write_all(alloc, around, args, nodes, &mut places, &mut types)?;
    end_apply(alloc, nodes, place, builtin, places, &types, ty)?;
    Ok(())
}

// The nodes of expressions in a row, with their places and types behind others.
#[cycle(write)]
#[inline(never)]
fn write_all(
    alloc: Global,
    around: &Surroundings<'_, '_>,
    args: &[Expr],
    nodes: &mut Vec<Node>,
    places: &mut Vec<u32>,
    types: &mut Vec<Ty>,
) -> Result<(), Memory>
    requires inputs { length (known_of around.now.known.now).inputs < 2 ^ 32 }
    requires room { HasRoom nodes.old.items (all_nodes_in (surroundings_of around.now) (terms (map term_of args.now))) }
    ensures long { OnOk result (IsLonger nodes.old.items nodes.new.items
        (all_nodes_in (surroundings_of around.now) (terms (map term_of args.now)))) }
    ensures nodes { OnOk result (map view_of nodes.new.items ≡ map view_of nodes.old.items
        ++ all_listed (length nodes.old.items)
        (all_unfolded_by (surroundings_of around.now) (length nodes.old.items) (terms (map term_of args.now)))) }
    ensures places { OnOk result (places.new.items ≡ places.old.items
        ++ places_of (length nodes.old.items)
        (all_unfolded_by (surroundings_of around.now) (length nodes.old.items) (terms (map term_of args.now)))) }
    ensures types { OnOk result (map type_of types.new.items ≡ map type_of types.old.items
        ++ types_of
        (all_unfolded_by (surroundings_of around.now) (length nodes.old.items) (terms (map term_of args.now)))) }
{
    let [arg, rest @ ..] = args else {
        return Ok(());
    };
    places.push(nodes.len() as u32)?;
    let mut ty = Ty::Local(LocalTy::Int);
    write(alloc, around, arg, nodes, &mut ty)?;
    types.push(ty)?;
    write_all(alloc, around, rest, nodes, places, types)?;
    Ok(())
}

// An `nbr`, which shares a value with the neighbours.
#[cycle(write)]
#[inline(never)]
fn write_nbr(
    alloc: Global,
    around: &Surroundings<'_, '_>,
    inner: &Expr,
    nodes: &mut Vec<Node>,
    ty: &mut Ty,
) -> Result<(), Memory>
    requires inputs { length (known_of around.now.known.now).inputs < 2 ^ 32 }
    requires room { HasRoom nodes.old.items (nodes_in (surroundings_of around.now) (NbrTerm (term_of inner.now))) }
    ensures long { OnOk result (IsLonger nodes.old.items nodes.new.items
        (nodes_in (surroundings_of around.now) (NbrTerm (term_of inner.now)))) }
    ensures written { OnOk result (IsWritten nodes.old.items nodes.new.items ty.new
        (unfolded_by (surroundings_of around.now) (length nodes.old.items) (NbrTerm (term_of inner.now)))) }
{
    let place = begin_node(alloc, nodes)?;
    write(alloc, around, inner, nodes, ty)?;
    end_nbr(alloc, nodes, place, ty)?;
    Ok(())
}

// A value that evolves by `rep`.
#[cycle(write)]
#[inline(never)]
fn write_rep(
    alloc: Global,
    around: &Surroundings<'_, '_>,
    first: &Expr,
    name: &Name,
    body: &Expr,
    nodes: &mut Vec<Node>,
    ty: &mut Ty,
) -> Result<(), Memory>
    requires inputs { length (known_of around.now.known.now).inputs < 2 ^ 32 }
    requires room { HasRoom nodes.old.items
        (nodes_in (surroundings_of around.now) (RepTerm (term_of first.now) name.now.text.items (term_of body.now))) }
    ensures long { OnOk result (IsLonger nodes.old.items nodes.new.items
        (nodes_in (surroundings_of around.now) (RepTerm (term_of first.now) name.now.text.items (term_of body.now)))) }
    ensures written { OnOk result (IsWritten nodes.old.items nodes.new.items ty.new
        (unfolded_by (surroundings_of around.now) (length nodes.old.items)
        (RepTerm (term_of first.now) name.now.text.items (term_of body.now)))) }
{
    let place = begin_node(alloc, nodes)?;
    write(alloc, around, first, nodes, ty)?;
    let second = nodes.len() as u32;
    let scope = Scope::Bind(&*name, place, &*ty, &*around.scope);
    let inner = Surroundings {
        known: &*around.known,
        visible: around.visible,
        scope: &scope,
    };
    let mut next = Ty::Local(LocalTy::Int);
    write(alloc, &inner, body, nodes, &mut next)?;
    end_two(alloc, nodes, place, second, Op::Rep, ty)?;
    Ok(())
}

// A value that evolves by `share`.
#[cycle(write)]
#[inline(never)]
fn write_share(
    alloc: Global,
    around: &Surroundings<'_, '_>,
    first: &Expr,
    name: &Name,
    body: &Expr,
    nodes: &mut Vec<Node>,
    ty: &mut Ty,
) -> Result<(), Memory>
    requires inputs { length (known_of around.now.known.now).inputs < 2 ^ 32 }
    requires room { HasRoom nodes.old.items
        (nodes_in (surroundings_of around.now) (ShareTerm (term_of first.now) name.now.text.items (term_of body.now))) }
    ensures long { OnOk result (IsLonger nodes.old.items nodes.new.items
        (nodes_in (surroundings_of around.now)
        (ShareTerm (term_of first.now) name.now.text.items (term_of body.now)))) }
    ensures written { OnOk result (IsWritten nodes.old.items nodes.new.items ty.new
        (unfolded_by (surroundings_of around.now) (length nodes.old.items)
        (ShareTerm (term_of first.now) name.now.text.items (term_of body.now)))) }
{
    let place = begin_node(alloc, nodes)?;
    write(alloc, around, first, nodes, ty)?;
    let mut shared = Ty::Local(LocalTy::Int);
    give_shared(alloc, ty, &mut shared)?;
    let second = nodes.len() as u32;
    let scope = Scope::Bind(&*name, place, &shared, &*around.scope);
    let inner = Surroundings {
        known: &*around.known,
        visible: around.visible,
        scope: &scope,
    };
    let mut next = Ty::Local(LocalTy::Int);
    write(alloc, &inner, body, nodes, &mut next)?;
    end_two(alloc, nodes, place, second, Op::Share, ty)?;
    Ok(())
}

// A branching.
#[cycle(write)]
#[inline(never)]
fn write_if(
    alloc: Global,
    around: &Surroundings<'_, '_>,
    condition: &Expr,
    then: &Expr,
    other: &Expr,
    nodes: &mut Vec<Node>,
    ty: &mut Ty,
) -> Result<(), Memory>
    requires inputs { length (known_of around.now.known.now).inputs < 2 ^ 32 }
    requires room { HasRoom nodes.old.items
        (nodes_in (surroundings_of around.now)
        (IfTerm (term_of condition.now) (term_of then.now) (term_of other.now))) }
    ensures long { OnOk result (IsLonger nodes.old.items nodes.new.items
        (nodes_in (surroundings_of around.now)
        (IfTerm (term_of condition.now) (term_of then.now) (term_of other.now)))) }
    ensures written { OnOk result (IsWritten nodes.old.items nodes.new.items ty.new
        (unfolded_by (surroundings_of around.now) (length nodes.old.items)
        (IfTerm (term_of condition.now) (term_of then.now) (term_of other.now)))) }
{
    let place = begin_node(alloc, nodes)?;
    let mut unused = Ty::Local(LocalTy::Int);
    write(alloc, around, condition, nodes, &mut unused)?;
    let second = nodes.len() as u32;
    write(alloc, around, then, nodes, ty)?;
    let third = nodes.len() as u32;
    write(alloc, around, other, nodes, &mut unused)?;
    end_if(alloc, nodes, place, second, third, ty)?;
    Ok(())
}

// A bound value.
#[cycle(write)]
#[inline(never)]
fn write_let(
    alloc: Global,
    around: &Surroundings<'_, '_>,
    name: &Name,
    bound: &Expr,
    body: &Expr,
    nodes: &mut Vec<Node>,
    ty: &mut Ty,
) -> Result<(), Memory>
    requires inputs { length (known_of around.now.known.now).inputs < 2 ^ 32 }
    requires room { HasRoom nodes.old.items
        (nodes_in (surroundings_of around.now) (LetTerm name.now.text.items (term_of bound.now) (term_of body.now))) }
    ensures long { OnOk result (IsLonger nodes.old.items nodes.new.items
        (nodes_in (surroundings_of around.now) (LetTerm name.now.text.items (term_of bound.now) (term_of body.now)))) }
    ensures written { OnOk result (IsWritten nodes.old.items nodes.new.items ty.new
        (unfolded_by (surroundings_of around.now) (length nodes.old.items)
        (LetTerm name.now.text.items (term_of bound.now) (term_of body.now)))) }
{
    let place = begin_node(alloc, nodes)?;
    let mut bound_type = Ty::Local(LocalTy::Int);
    write(alloc, around, bound, nodes, &mut bound_type)?;
    let second = nodes.len() as u32;
    let scope = Scope::Bind(&*name, place, &bound_type, &*around.scope);
    let inner = Surroundings {
        known: &*around.known,
        visible: around.visible,
        scope: &scope,
    };
    write(alloc, &inner, body, nodes, ty)?;
    end_two(alloc, nodes, place, second, Op::Let, ty)?;
    Ok(())
}

// A call with arguments.
#[cycle(write)]
#[inline(never)]
fn write_call(
    alloc: Global,
    around: &Surroundings<'_, '_>,
    name: &Name,
    args: &[Expr],
    nodes: &mut Vec<Node>,
    ty: &mut Ty,
) -> Result<(), Memory>
    requires inputs { length (known_of around.now.known.now).inputs < 2 ^ 32 }
    requires room { HasRoom nodes.old.items
        (nodes_in (surroundings_of around.now) (CallTerm name.now.text.items (terms (map term_of args.now)))) }
    ensures long { OnOk result (IsLonger nodes.old.items nodes.new.items
        (nodes_in (surroundings_of around.now) (CallTerm name.now.text.items (terms (map term_of args.now))))) }
    ensures written { OnOk result (IsWritten nodes.old.items nodes.new.items ty.new
        (unfolded_by (surroundings_of around.now) (length nodes.old.items)
        (CallTerm name.now.text.items (terms (map term_of args.now))))) }
{
    let mut given = Vec::new(alloc);
    write_given(alloc, around, name, &mut given, args, nodes, ty)?;
    Ok(())
}

// What is left of a call, behind the arguments that are given: a `let` for each further one, around the body.
#[cycle(write)]
#[inline(never)]
fn write_given(
    alloc: Global,
    around: &Surroundings<'_, '_>,
    name: &Name,
    given: &mut Vec<Argument>,
    args: &[Expr],
    nodes: &mut Vec<Node>,
    ty: &mut Ty,
) -> Result<(), Memory>
    requires inputs { length (known_of around.now.known.now).inputs < 2 ^ 32 }
    requires room { HasRoom nodes.old.items
        (call_nodes_in (surroundings_of around.now) name.now.text.items (terms (map term_of args.now))) }
    ensures long { OnOk result (IsLonger nodes.old.items nodes.new.items
        (call_nodes_in (surroundings_of around.now) name.now.text.items (terms (map term_of args.now)))) }
    ensures written { OnOk result (IsWritten nodes.old.items nodes.new.items ty.new
        (call_within (surroundings_of around.now) name.now.text.items (map argument_of given.old.items)
        (length nodes.old.items) (terms (map term_of args.now)))) }
{
    match args {
        [] => write_body(
            alloc,
            around.known,
            around.visible,
            name,
            &*given,
            nodes,
            ty,
        ),
        [arg, rest @ ..] => write_argument(alloc, around, name, given, arg, rest, nodes, ty),
    }
}

// The next argument of a call, and what is left behind it.
#[cycle(write)]
#[inline(never)]
fn write_argument(
    alloc: Global,
    around: &Surroundings<'_, '_>,
    name: &Name,
    given: &mut Vec<Argument>,
    arg: &Expr,
    rest: &[Expr],
    nodes: &mut Vec<Node>,
    ty: &mut Ty,
) -> Result<(), Memory>
    requires inputs { length (known_of around.now.known.now).inputs < 2 ^ 32 }
    requires room { HasRoom nodes.old.items (call_nodes_in (surroundings_of around.now) name.now.text.items
        (MoreTerms (term_of arg.now) (terms (map term_of rest.now)))) }
    ensures long { OnOk result (IsLonger nodes.old.items nodes.new.items
        (call_nodes_in (surroundings_of around.now) name.now.text.items
        (MoreTerms (term_of arg.now) (terms (map term_of rest.now))))) }
    ensures written { OnOk result (IsWritten nodes.old.items nodes.new.items ty.new
        (call_within (surroundings_of around.now) name.now.text.items (map argument_of given.old.items)
        (length nodes.old.items) (MoreTerms (term_of arg.now) (terms (map term_of rest.now))))) }
{
    let place = begin_node(alloc, nodes)?;
    write(alloc, around, arg, nodes, ty)?;
    let second = nodes.len() as u32;
    give(given, place, ty)?;
    write_given(alloc, around, name, given, rest, nodes, ty)?;
    end_two(alloc, nodes, place, second, Op::Let, ty)?;
    Ok(())
}

// A function's body, with its arguments.
#[cycle(write)]
#[inline(never)]
fn write_body(
    alloc: Global,
    known: &Known<'_>,
    visible: usize,
    name: &Name,
    given: &[Argument],
    nodes: &mut Vec<Node>,
    ty: &mut Ty,
) -> Result<(), Memory>
    requires inputs { length (known_of known.now).inputs < 2 ^ 32 }
    requires room { HasRoom nodes.old.items (size_of name.now.text.items (counted (known_of known.now) visible)) }
    ensures long { OnOk result (IsLonger nodes.old.items nodes.new.items
        (size_of name.now.text.items (counted (known_of known.now) visible))) }
    ensures written { OnOk result (IsWritten nodes.old.items nodes.new.items ty.new
        (call_in (known_of known.now) visible [] name.now.text.items
        (map argument_of given.now) (length nodes.old.items) NoTerms)) }
{
    match find(known, visible, name) {
        Some((number, function)) => {
            let around = Surroundings {
                known: &*known,
                visible: number,
                scope: &Scope::Arguments(function.params, given),
            };
            write(alloc, &around, function.body, nodes, ty)
        }
        None => put_untyped(alloc, nodes, ty),
    }
}

// A call without arguments.
#[cycle(write)]
#[inline(never)]
fn write_bare_call(
    alloc: Global,
    known: &Known<'_>,
    visible: usize,
    name: &Name,
    nodes: &mut Vec<Node>,
    ty: &mut Ty,
) -> Result<(), Memory>
    requires inputs { length (known_of known.now).inputs < 2 ^ 32 }
    requires room { HasRoom nodes.old.items (size_of name.now.text.items (counted (known_of known.now) visible)) }
    ensures long { OnOk result (IsLonger nodes.old.items nodes.new.items
        (size_of name.now.text.items (counted (known_of known.now) visible))) }
    ensures written { OnOk result (IsWritten nodes.old.items nodes.new.items ty.new
        (call_in (known_of known.now) visible [] name.now.text.items [] (length nodes.old.items) NoTerms)) }
{
    match last_body(&*known, visible, &*name) {
        Some((seen, body)) => {
            let around = Surroundings {
                known: &*known,
                visible: seen,
                scope: &Scope::Arguments(&[], &[]),
            };
            write(alloc, &around, body, nodes, ty)
        }
        None => put_untyped(alloc, nodes, ty),
    }
}
