//! Single nodes.

ghost use Rattle.std.specs.Prelude.{◌≡◌, ◌≤◌, ◌<◌, ◌+◌, ◌^◌, ◌++◌, [], ◌∷◌, IfOk, OnOk, length, map, slice_set};
ghost use Rattle.fc_values.specs.BuiltinTypes.{inner as inner_of};
ghost use Rattle.fc_values.specs.Types.{BoolType, IntType, TypeField, TypeLocal, type_of};
ghost use Rattle.fc_values.specs.Values.{BoolValue, IntValue};
ghost use Rattle.fc_nodes.specs.Terms.{Has, Literal, NbrLink, OfApply, OfIf, OfNbr, Plain, Uid, sort_of, view_of};
ghost use Rattle.fc_types.specs.Faults.{shared_type as shared};
ghost use Rattle.fc_types.specs.Judging.{judge_builtin};
ghost use Rattle.fc_types.specs.Views.{known_of};
ghost use Rattle.unfold.specs.Unfolding.{binder_of, input_number, sense_by, type_given, untyped, variable_term};
ghost use Rattle.unfold.specs.Writing.{IsWritten, input_term, scope_of};
ghost use Rattle.fc_values.specs.declared.limits.TheConstants.{MOST_NODES};

use crate::names::find_input;
use crate::scopes::{Scope, lookup};
use fc_nodes::{Node, Op};
use fc_types::{Known, TypeRefusal, builtin_type, copy_type, shared_type};
use fc_values::{Builtin, InputTy, Local, LocalTy, Memory, Name, Ty};
use std::alloc::Global;
use std::mem::replace;
use std::slice::from_ref;

/// Puts a node whose kids are not known yet behind others, and gives its place.
#[inline(never)]
pub fn begin_node(alloc: Global, nodes: &mut Vec<Node>) -> Result<u32, Memory>
    requires room { length nodes.old.items < MOST_NODES }
    ensures place { IfOk result (λ place. place ≡ length nodes.old.items) }
    ensures long { IfOk result (λ place. length nodes.new.items ≡ length nodes.old.items + 1) }
    ensures behind { IfOk result (λ place. map view_of nodes.new.items ≡ map view_of nodes.old.items
        ++ Has (sort_of Op.Let) (type_of (Ty.Local LocalTy.Int)) [] ∷ []) }
{
    let place = nodes.len() as u32;
    nodes.push(Node {
        op: Op::Let,
        ty: Ty::Local(LocalTy::Int),
        kids: Vec::new(alloc),
    })?;
    Ok(place)
}

/// Says what the node at a place is.
pub fn end_node(nodes: &mut Vec<Node>, place: u32, op: Op, ty: Ty, kids: Vec<u32>)
    requires { place < length nodes.old.items }
    ensures long { length nodes.new.items ≡ length nodes.old.items }
    ensures set { map view_of nodes.new.items
        ≡ slice_set (map view_of nodes.old.items) place (Has (sort_of op) (type_of ty) kids.items) }
{
    nodes[place as usize] = Node { op, ty, kids };
}

/// Says that the node at a place is a builtin, whose one kid stands behind it, and gives the type of its value in place
/// of the kid's.
#[inline(never)]
pub fn end_builtin(
    alloc: Global,
    nodes: &mut Vec<Node>,
    place: u32,
    builtin: Builtin,
    ty: &mut Ty,
) -> Result<(), Memory>
    requires place { place < length nodes.old.items }
    requires few { length nodes.old.items ≤ MOST_NODES }
    ensures long { OnOk result (length nodes.new.items ≡ length nodes.old.items) }
    ensures ty { OnOk result (type_of ty.new ≡ type_given (judge_builtin builtin (type_of ty.old ∷ []))) }
    ensures set { OnOk result (map view_of nodes.new.items
        ≡ slice_set (map view_of nodes.old.items) place (Has (OfApply builtin) (type_of ty.new) ((place + 1) ∷ []))) }
{
    let given = given_type(alloc, builtin, from_ref(&*ty))?;
    let kids = vec![in alloc; place + 1]?;
    end_node(
        nodes,
        place,
        Op::Apply(builtin),
        copy_type(alloc, &given)?,
        kids,
    );
    *ty = given;
    Ok(())
}

/// Says that the node at a place is a builtin with these kids, and gives the type of its value from those of the kids.
#[inline(never)]
pub fn end_apply(
    alloc: Global,
    nodes: &mut Vec<Node>,
    place: u32,
    builtin: Builtin,
    kids: Vec<u32>,
    types: &[Ty],
    ty: &mut Ty,
) -> Result<(), Memory>
    requires place { place < length nodes.old.items }
    ensures long { OnOk result (length nodes.new.items ≡ length nodes.old.items) }
    ensures ty { OnOk result (type_of ty.new ≡ type_given (judge_builtin builtin (map type_of types.now))) }
    ensures set { OnOk result (map view_of nodes.new.items
        ≡ slice_set (map view_of nodes.old.items) place (Has (OfApply builtin) (type_of ty.new) kids.items)) }
{
    let given = given_type(alloc, builtin, types)?;
    end_node(
        nodes,
        place,
        Op::Apply(builtin),
        copy_type(alloc, &given)?,
        kids,
    );
    *ty = given;
    Ok(())
}

/// Says that the node at a place is an `nbr`, whose kid stands behind it, and gives the type of its value in place of
/// the kid's.
#[inline(never)]
pub fn end_nbr(alloc: Global, nodes: &mut Vec<Node>, place: u32, ty: &mut Ty) -> Result<(), Memory>
    requires place { place < length nodes.old.items }
    requires few { length nodes.old.items ≤ MOST_NODES }
    ensures long { OnOk result (length nodes.new.items ≡ length nodes.old.items) }
    ensures ty { OnOk result (type_of ty.new ≡ TypeField (inner_of (type_of ty.old))) }
    ensures set { OnOk result (map view_of nodes.new.items
        ≡ slice_set (map view_of nodes.old.items) place (Has OfNbr (type_of ty.new) ((place + 1) ∷ []))) }
{
    let given = field_type(replace(ty, Ty::Local(LocalTy::Int)));
    let kids = vec![in alloc; place + 1]?;
    end_node(nodes, place, Op::Nbr, copy_type(alloc, &given)?, kids);
    *ty = given;
    Ok(())
}

/// Says that the node at a place has two kids and this type: the first kid stands behind it, the other one at `second`.
#[inline(never)]
pub fn end_two(
    alloc: Global,
    nodes: &mut Vec<Node>,
    place: u32,
    second: u32,
    op: Op,
    ty: &Ty,
) -> Result<(), Memory>
    requires place { place < length nodes.old.items }
    requires few { length nodes.old.items ≤ MOST_NODES }
    ensures long { OnOk result (length nodes.new.items ≡ length nodes.old.items) }
    ensures set { OnOk result (map view_of nodes.new.items
        ≡ slice_set (map view_of nodes.old.items) place
        (Has (sort_of op) (type_of ty.now) ((place + 1) ∷ second ∷ []))) }
{
    let kids = vec![in alloc; place + 1, second]?;
    end_node(nodes, place, op, copy_type(alloc, ty)?, kids);
    Ok(())
}

/// Says that the node at a place is an `if` of this type: its condition stands behind it, its branches at `second` and
/// `third`.
#[inline(never)]
pub fn end_if(
    alloc: Global,
    nodes: &mut Vec<Node>,
    place: u32,
    second: u32,
    third: u32,
    ty: &Ty,
) -> Result<(), Memory>
    requires place { place < length nodes.old.items }
    requires few { length nodes.old.items ≤ MOST_NODES }
    ensures long { OnOk result (length nodes.new.items ≡ length nodes.old.items) }
    ensures set { OnOk result (map view_of nodes.new.items
        ≡ slice_set (map view_of nodes.old.items) place
        (Has OfIf (type_of ty.now) ((place + 1) ∷ second ∷ third ∷ []))) }
{
    let kids = vec![in alloc; place + 1, second, third]?;
    end_node(nodes, place, Op::If, copy_type(alloc, ty)?, kids);
    Ok(())
}

/// Gives the type of the variable of a `share`, from that of its first expression.
#[inline(never)]
pub fn give_shared(alloc: Global, first: &Ty, ty: &mut Ty) -> Result<(), Memory>
    ensures { OnOk result (type_of ty.new ≡ shared (type_of first.now)) }
{
    *ty = shared_type(alloc, first)?;
    Ok(())
}

/// Puts a node without kids behind others, and gives its type.
pub fn put_leaf(
    alloc: Global,
    nodes: &mut Vec<Node>,
    op: Op,
    given: Ty,
    ty: &mut Ty,
) -> Result<(), Memory>
    ensures long { OnOk result (length nodes.new.items ≡ length nodes.old.items + 1) }
    ensures behind { OnOk result (map view_of nodes.new.items ≡ map view_of nodes.old.items
        ++ Has (sort_of op) (type_of given) [] ∷ []) }
    ensures same { OnOk result (type_of ty.new ≡ type_of given) }
{
    nodes.push(Node {
        op,
        ty: copy_type(alloc, &given)?,
        kids: Vec::new(alloc),
    })?;
    *ty = given;
    Ok(())
}

/// Puts a number.
#[inline(never)]
pub fn put_number(
    alloc: Global,
    nodes: &mut Vec<Node>,
    number: u32,
    ty: &mut Ty,
) -> Result<(), Memory>
    ensures long { OnOk result (length nodes.new.items ≡ length nodes.old.items + 1) }
    ensures written { OnOk result (IsWritten nodes.old.items nodes.new.items ty.new
        (Plain (TypeLocal IntType) (Literal (IntValue number)))) }
{
    put_leaf(
        alloc,
        nodes,
        Op::Lit(Local::Int(number)),
        Ty::Local(LocalTy::Int),
        ty,
    )
}

/// Puts a truth value.
#[inline(never)]
pub fn put_truth(
    alloc: Global,
    nodes: &mut Vec<Node>,
    truth: bool,
    ty: &mut Ty,
) -> Result<(), Memory>
    ensures long { OnOk result (length nodes.new.items ≡ length nodes.old.items + 1) }
    ensures written { OnOk result (IsWritten nodes.old.items nodes.new.items ty.new
        (Plain (TypeLocal BoolType) (Literal (BoolValue truth)))) }
{
    put_leaf(
        alloc,
        nodes,
        Op::Lit(Local::Bool(truth)),
        Ty::Local(LocalTy::Bool),
        ty,
    )
}

/// Puts the device's number.
#[inline(never)]
pub fn put_uid(alloc: Global, nodes: &mut Vec<Node>, ty: &mut Ty) -> Result<(), Memory>
    ensures long { OnOk result (length nodes.new.items ≡ length nodes.old.items + 1) }
    ensures written { OnOk result (IsWritten nodes.old.items nodes.new.items ty.new
        (Plain (TypeLocal IntType) Uid)) }
{
    put_leaf(alloc, nodes, Op::Uid, Ty::Local(LocalTy::Int), ty)
}

/// Puts the weights of the links.
#[inline(never)]
pub fn put_links(alloc: Global, nodes: &mut Vec<Node>, ty: &mut Ty) -> Result<(), Memory>
    ensures long { OnOk result (length nodes.new.items ≡ length nodes.old.items + 1) }
    ensures written { OnOk result (IsWritten nodes.old.items nodes.new.items ty.new
        (Plain (TypeField IntType) NbrLink)) }
{
    put_leaf(alloc, nodes, Op::NbrLink, Ty::Field(LocalTy::Int), ty)
}

/// What stands for an expression without a type. No typed program has one.
#[inline(never)]
pub fn put_untyped(alloc: Global, nodes: &mut Vec<Node>, ty: &mut Ty) -> Result<(), Memory>
    ensures long { OnOk result (length nodes.new.items ≡ length nodes.old.items + 1) }
    ensures written { OnOk result (IsWritten nodes.old.items nodes.new.items ty.new untyped) }
{
    put_leaf(alloc, nodes, Op::NbrLink, Ty::Local(LocalTy::Int), ty)
}

/// Puts a variable.
#[inline(never)]
pub fn put_variable(
    alloc: Global,
    scope: &Scope<'_>,
    name: &Name,
    nodes: &mut Vec<Node>,
    ty: &mut Ty,
) -> Result<(), Memory>
    ensures long { OnOk result (length nodes.new.items ≡ length nodes.old.items + 1) }
    ensures written { OnOk result (IsWritten nodes.old.items nodes.new.items ty.new
        (variable_term (binder_of name.now.text.items (scope_of scope.now)))) }
{
    match lookup(scope, name) {
        Some((place, found)) => put_leaf(
            alloc,
            nodes,
            Op::Var(place),
            copy_type(alloc, found)?,
            ty,
        ),
        None => put_untyped(alloc, nodes, ty),
    }
}

/// Puts an input.
#[inline(never)]
pub fn put_input(
    alloc: Global,
    known: &Known<'_>,
    name: &Name,
    nodes: &mut Vec<Node>,
    ty: &mut Ty,
) -> Result<(), Memory>
    requires { length (known_of known.now).inputs < 2 ^ 32 }
    ensures long { OnOk result (length nodes.new.items ≡ length nodes.old.items + 1) }
    ensures written { OnOk result (IsWritten nodes.old.items nodes.new.items ty.new
        (sense_by (known_of known.now).inputs (input_number name.now.text.items (known_of known.now).inputs))) }
{
    match find_input(known, name) {
        Some((number, InputTy::Truth)) => {
            put_leaf(
                alloc,
                nodes,
                Op::Sense(number),
                Ty::Local(LocalTy::Bool),
                ty,
            )
        }
        Some((number, InputTy::Whole(_, _))) => {
            put_leaf(alloc, nodes, Op::Sense(number), Ty::Local(LocalTy::Int), ty)
        }
        None => put_untyped(alloc, nodes, ty),
    }
}

/// The type of a builtin's value.
pub fn given_type(alloc: Global, builtin: Builtin, args: &[Ty]) -> Result<Ty, Memory>
    ensures { IfOk result (λ t. type_of t ≡ type_given (judge_builtin builtin (map type_of args.now))) }
{
    match builtin_type(alloc, builtin, args) {
        Ok(ty) => Ok(ty),
        Err(TypeRefusal::Kind(_)) => Ok(Ty::Local(LocalTy::Int)),
        Err(TypeRefusal::Memory) => Err(Memory),
    }
}

/// The type of fields of values of a type.
pub fn field_type(ty: Ty) -> Ty
    ensures { type_of result ≡ TypeField (inner_of (type_of ty)) }
{
    match ty {
        Ty::Local(ty) => Ty::Field(ty),
        Ty::Field(ty) => Ty::Field(ty),
    }
}
