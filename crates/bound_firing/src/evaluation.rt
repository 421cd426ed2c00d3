//! The evaluation of a program's nodes over bounds.

ghost use Rattle.std.specs.Prelude.{[], ◌∷◌, ◌≡◌, ◌<◌, IfOk, OnOk, length, map, min, slice_get, slice_set};
ghost use Rattle.fc_nodes.specs.Terms.{OfApply, OfNbr, OfEvolve, OfIf, OfLet};
ghost use Rattle.value_bounds.specs.BoundValues.{Between, exactly as exactly_of};
ghost use Rattle.value_bounds.specs.BoundBuiltins.{BoundField, BoundLocal};
ghost use Rattle.fc_values.specs.Values.{local_of};
ghost use Rattle.value_bounds.specs.References.{local_bound_in, local_bounds_in, any_bound_in, lent_bound_in};
ghost use Rattle.bound_firing.specs.Firing.{variable_bound, local_part, input_bound as bound_of_input};
ghost use Rattle.bound_firing.specs.FlatSeats.{SlotsHave, flat_entries, flat_maybes, flat_weight};
ghost use Rattle.bound_firing.specs.References.{flat_seats_in};
ghost use Rattle.bound_firing.specs.Walks.{started, one_of};
ghost use Rattle.bound_firing.specs.Contexts.{vars_in, evolution_in, maybe_in, ReadyIn, ReadyFor, FiredTo, ReadyKids};
ghost use Rattle.bound_firing.specs.Contexts.{KidsFiredTo, ReadyBranch, BranchFiredTo, SeenTo, BuiltOf};
ghost use Rattle.bound_firing.specs.Contexts.{Heard, Kept};
ghost use Rattle.bound_firing.specs.Seats.{cut_to};

use crate::arguments::{
    Argument, empty_argument, held, lend_all, make_one, make_three, make_two, of_one, seen,
};
use crate::seating::{
    cut_to_seats, may_be, own_or_first, seat_field, seat_weights, seats_in_branch, slot_at,
};
use crate::seats::Seats;
use fc_nodes::{Layout, Node, Op, Unfolded, ceiling_of, least_weight, slot_of};
use fc_values::{Builtin, Local, Memory};
use std::alloc::Global;
use std::mem::replace;
use value_bounds::{
    Bound, BoundRef, LocalBound, bound_of_builtin, copy_bound, either, exactly, lend,
};

/// What a firing depends on: a program, its layout, the device, and bounds of its inputs.
#[derive(Clone, Copy)]
pub struct Context<'a> {
    pub program: &'a Unfolded,
    pub layout: &'a Layout,
    pub device: u32,
    pub inputs: &'a [LocalBound],
}

/// The binders in scope, by their places, with their bounds.
#[derive(Clone, Copy)]
pub enum Scope<'a> {
    Empty,
    Bind(u32, BoundRef<'a>, &'a Scope<'a>),
}

/// What a node sees: the exports that may be aligned there, and the binders in scope.
#[derive(Clone, Copy)]
pub struct Sight<'a, 'b> {
    pub seats: &'a Seats<'b>,
    pub vars: &'a Scope<'a>,
}

/// What the variable of an evolving value is: the kept value, or the field of it and of the neighbours'.
#[derive(Clone, Copy)]
pub enum Evolution {
    Rep,
    Share,
}

/// Evaluates a node: writes the bound of its value over another, and those of its slots into the draft. Programs may be
/// thousands of nodes deep. So each kind of node has a function of its own, and a bound is made in the place where it
/// will stand: a level takes little of the stack.
#[cycle(eval)]
pub fn eval(
    alloc: Global,
    context: &Context<'_>,
    place: u32,
    sight: &Sight<'_, '_>,
    draft: &mut [LocalBound],
    target: &mut Bound,
) -> Result<(), Memory>
    requires { ReadyIn context.now place sight.now draft.old }
    ensures { OnOk result (FiredTo context.now place sight.now draft.old draft.new target.new) }
{
    let node = context.program.node(place);
    match &node.op {
        Op::Lit(value) => literal(alloc, value, target),
        Op::Var(binder) => variable(alloc, sight, *binder, target),
        Op::Sense(input) => sensed(alloc, context.inputs, *input, target),
        Op::Uid => {
            uid(context, target);
            Ok(())
        }
        Op::NbrLink => links(alloc, sight.seats, least_weight(context.program), target),
        Op::Apply(builtin) => {
            eval_apply(alloc, context, place, node, *builtin, sight, draft, target)
        }
        Op::Nbr => eval_nbr(alloc, context, place, node, sight, draft, target),
        Op::If => eval_if(alloc, context, place, node, sight, draft, target),
        Op::Let => eval_let(alloc, context, place, node, sight, draft, target),
        Op::Rep => {
            let rep = Evolution::Rep;
            eval_evolve(alloc, context, place, node, rep, sight, draft, target)
        }
        Op::Share => {
            let share = Evolution::Share;
            eval_evolve(alloc, context, place, node, share, sight, draft, target)
        }
    }
}

#[cycle(eval)]
#[inline(always)]
fn eval_apply(
    alloc: Global,
    context: &Context<'_>,
    place: u32,
    node: &Node,
    builtin: Builtin,
    sight: &Sight<'_, '_>,
    draft: &mut [LocalBound],
    target: &mut Bound,
) -> Result<(), Memory>
    requires { ReadyFor context.now place sight.now node.now (OfApply builtin) draft.old }
    ensures { OnOk result (FiredTo context.now place sight.now draft.old draft.new target.new) }
{
    match node.kids.as_slice() {
        [a] => eval_one(alloc, context, *a, builtin, sight, draft, target),
        [a, b] => eval_two(alloc, context, *a, *b, builtin, sight, draft, target),
        [a, b, c] => eval_three(alloc, context, *a, *b, *c, builtin, sight, draft, target),
        kids => eval_more(alloc, context, kids, builtin, sight, draft, target),
    }
}

// What a builtin makes of one argument.
#[cycle(eval)]
#[inline(never)]
fn eval_one(
    alloc: Global,
    context: &Context<'_>,
    kid: u32,
    builtin: Builtin,
    sight: &Sight<'_, '_>,
    draft: &mut [LocalBound],
    target: &mut Bound,
) -> Result<(), Memory>
    requires { ReadyKids context.now (kid ∷ []) sight.now draft.old }
    ensures { OnOk result (BuiltOf context.now builtin (kid ∷ []) sight.now draft.old draft.new target.new) }
{
    match held(context, kid, sight) {
        Some(bound) => of_one(alloc, context, builtin, bound, target),
        None => {
            eval(alloc, context, kid, sight, draft, target)?;
            make_one(alloc, context, builtin, target)
        }
    }
}

// What a builtin makes of two arguments.
#[cycle(eval)]
#[inline(never)]
fn eval_two(
    alloc: Global,
    context: &Context<'_>,
    first: u32,
    second: u32,
    builtin: Builtin,
    sight: &Sight<'_, '_>,
    draft: &mut [LocalBound],
    target: &mut Bound,
) -> Result<(), Memory>
    requires { ReadyKids context.now (first ∷ second ∷ []) sight.now draft.old }
    ensures { OnOk result (BuiltOf context.now builtin (first ∷ second ∷ []) sight.now draft.old draft.new target.new) }
{
    let mut a = empty_argument();
    let mut b = empty_argument();
    eval_argument(alloc, context, first, sight, draft, &mut a)?;
    eval_argument(alloc, context, second, sight, draft, &mut b)?;
    make_two(alloc, context, builtin, &mut a, &mut b, target)
}

// What a builtin makes of three arguments.
#[cycle(eval)]
#[inline(never)]
fn eval_three(
    alloc: Global,
    context: &Context<'_>,
    first: u32,
    second: u32,
    third: u32,
    builtin: Builtin,
    sight: &Sight<'_, '_>,
    draft: &mut [LocalBound],
    target: &mut Bound,
) -> Result<(), Memory>
    requires { ReadyKids context.now (first ∷ second ∷ third ∷ []) sight.now draft.old }
    ensures { OnOk result (BuiltOf context.now builtin (first ∷ second ∷ third ∷ []) sight.now draft.old draft.new
        target.new) }
{
    let mut a = empty_argument();
    let mut b = empty_argument();
    let mut c = empty_argument();
    eval_argument(alloc, context, first, sight, draft, &mut a)?;
    eval_argument(alloc, context, second, sight, draft, &mut b)?;
    eval_argument(alloc, context, third, sight, draft, &mut c)?;
    make_three(alloc, context, builtin, &a, &b, &c, target)
}

// What a builtin makes of any number of arguments.
#[cycle(eval)]
#[inline(never)]
fn eval_more(
    alloc: Global,
    context: &Context<'_>,
    kids: &[u32],
    builtin: Builtin,
    sight: &Sight<'_, '_>,
    draft: &mut [LocalBound],
    target: &mut Bound,
) -> Result<(), Memory>
    requires { ReadyKids context.now kids.now sight.now draft.old }
    ensures { OnOk result (BuiltOf context.now builtin kids.now sight.now draft.old draft.new target.new) }
{
    let mut args = Vec::with_capacity(alloc, kids.len())?;
    eval_kids(alloc, context, kids, sight, draft, &mut args)?;
    let lent = lend_all(alloc, &args)?;
    let ceiling = ceiling_of(context.program);
    *target = bound_of_builtin(alloc, builtin, &lent, context.device, ceiling)?;
    Ok(())
}

// Evaluates nodes one after another, and adds the bounds of their values.
#[cycle(eval)]
fn eval_kids(
    alloc: Global,
    context: &Context<'_>,
    kids: &[u32],
    sight: &Sight<'_, '_>,
    draft: &mut [LocalBound],
    args: &mut Vec<Bound>,
) -> Result<(), Memory>
    requires { ReadyKids context.now kids.now sight.now draft.old }
    ensures { OnOk result (KidsFiredTo context.now kids.now sight.now draft.old draft.new args.old.items
        args.new.items) }
{
    let Some((first, rest)) = kids.split_first() else {
        return Ok(());
    };
    let mut bound = Bound::Any;
    eval(alloc, context, *first, sight, draft, &mut bound)?;
    args.push(bound)?;
    eval_kids(alloc, context, rest, sight, draft, args)?;
    Ok(())
}

// Evaluates a node whose bound is only looked at: one that a binder holds isn't copied.
#[cycle(eval)]
#[inline(always)]
fn eval_argument<'a>(
    alloc: Global,
    context: &Context<'_>,
    place: u32,
    sight: &Sight<'a, '_>,
    draft: &mut [LocalBound],
    argument: &mut Argument<'a>,
) -> Result<(), Memory>
    requires { ReadyIn context.now place sight.now draft.old }
    ensures { OnOk result (SeenTo context.now place sight.now draft.old draft.new argument.new) }
{
    match held(context, place, sight) {
        Some(bound) => {
            argument.held = Some(bound);
            Ok(())
        }
        None => {
            argument.held = None;
            eval(alloc, context, place, sight, draft, &mut argument.made)
        }
    }
}

#[cycle(eval)]
#[inline(never)]
fn eval_nbr(
    alloc: Global,
    context: &Context<'_>,
    place: u32,
    node: &Node,
    sight: &Sight<'_, '_>,
    draft: &mut [LocalBound],
    target: &mut Bound,
) -> Result<(), Memory>
    requires { ReadyFor context.now place sight.now node.now OfNbr draft.old }
    ensures { OnOk result (FiredTo context.now place sight.now draft.old draft.new target.new) }
{
    let slot = slot_of(context.layout, place);
    eval(alloc, context, node.kids[0], sight, draft, target)?;
    hear(alloc, sight.seats, slot, draft, target)
}

// The field of what the neighbours have in a slot, with a new bound at the device itself, which the slot keeps.
fn hear(
    alloc: Global,
    seats: &Seats<'_>,
    slot: u32,
    draft: &mut [LocalBound],
    target: &mut Bound,
) -> Result<(), Memory>
    requires seats { SlotsHave slot (flat_seats_in seats.now) }
    requires within { slot < length draft.old }
    ensures { OnOk result (Heard slot seats.now target.old draft.old draft.new target.new) }
{
    let own = take_local(target);
    let field = seat_field(alloc, seats, slot, copy_bound(alloc, &own)?)?;
    put(draft, slot, own);
    *target = Bound::Field(field);
    Ok(())
}

#[cycle(eval)]
#[inline(never)]
fn eval_evolve(
    alloc: Global,
    context: &Context<'_>,
    place: u32,
    node: &Node,
    evolution: Evolution,
    sight: &Sight<'_, '_>,
    draft: &mut [LocalBound],
    target: &mut Bound,
) -> Result<(), Memory>
    requires { ReadyFor context.now place sight.now node.now (OfEvolve (evolution_in evolution)) draft.old }
    ensures { OnOk result (FiredTo context.now place sight.now draft.old draft.new target.new) }
{
    let slot = slot_of(context.layout, place);
    let mut start = Bound::Any;
    eval(alloc, context, node.kids[0], sight, draft, &mut start)?;
    begin(alloc, evolution, sight.seats, slot, &mut start)?;
    let evolving = Scope::Bind(place, lend(&start), sight.vars);
    let body = Sight {
        seats: sight.seats,
        vars: &evolving,
    };
    eval(alloc, context, node.kids[1], &body, draft, target)?;
    keep(alloc, slot, draft, target)
}

// A new bound, which the slot keeps.
fn keep(
    alloc: Global,
    slot: u32,
    draft: &mut [LocalBound],
    target: &mut Bound,
) -> Result<(), Memory>
    requires { slot < length draft.old }
    ensures { OnOk result (Kept slot target.old draft.old draft.new target.new) }
{
    let own = take_local(target);
    put(draft, slot, copy_bound(alloc, &own)?);
    *target = Bound::Local(own);
    Ok(())
}

#[cycle(eval)]
#[inline(never)]
fn eval_if(
    alloc: Global,
    context: &Context<'_>,
    place: u32,
    node: &Node,
    sight: &Sight<'_, '_>,
    draft: &mut [LocalBound],
    target: &mut Bound,
) -> Result<(), Memory>
    requires { ReadyFor context.now place sight.now node.now OfIf draft.old }
    ensures { OnOk result (FiredTo context.now place sight.now draft.old draft.new target.new) }
{
    let slot = slot_of(context.layout, place);
    eval(alloc, context, node.kids[0], sight, draft, target)?;
    put(draft, slot, take_local(target));
    let first = eval_branch(alloc, context, node.kids[1], slot, true, sight, draft)?;
    let second = eval_branch(alloc, context, node.kids[2], slot, false, sight, draft)?;
    *target = either_of(alloc, first, second)?;
    Ok(())
}

// Evaluates a branch of the `if` with a slot, unless the bound there says that it isn't taken.
#[cycle(eval)]
#[inline(never)]
fn eval_branch(
    alloc: Global,
    context: &Context<'_>,
    place: u32,
    slot: u32,
    truth: bool,
    sight: &Sight<'_, '_>,
    draft: &mut [LocalBound],
) -> Result<Option<Bound>, Memory>
    requires { ReadyBranch context.now place slot truth sight.now draft.old }
    ensures { IfOk result (BranchFiredTo context.now place slot truth sight.now draft.old draft.new) }
{
    if !may_be(truth, slot_at(draft, slot)) {
        return Ok(None);
    }
    let seats = seats_in_branch(alloc, sight.seats, slot, truth)?;
    let taken = Sight {
        seats: &seats,
        vars: sight.vars,
    };
    let mut bound = Bound::Any;
    eval(alloc, context, place, &taken, draft, &mut bound)?;
    Ok(Some(bound))
}

#[cycle(eval)]
#[inline(never)]
fn eval_let(
    alloc: Global,
    context: &Context<'_>,
    place: u32,
    node: &Node,
    sight: &Sight<'_, '_>,
    draft: &mut [LocalBound],
    target: &mut Bound,
) -> Result<(), Memory>
    requires { ReadyFor context.now place sight.now node.now OfLet draft.old }
    ensures { OnOk result (FiredTo context.now place sight.now draft.old draft.new target.new) }
{
    let mut value = empty_argument();
    eval_argument(alloc, context, node.kids[0], sight, draft, &mut value)?;
    let inner = Scope::Bind(place, seen(&value), sight.vars);
    let body = Sight {
        seats: sight.seats,
        vars: &inner,
    };
    eval(alloc, context, node.kids[1], &body, draft, target)
}

/// The bound of a binder's value: that of the nearest binder in scope with its place.
pub fn in_scope<'a>(vars: &Scope<'a>, binder: u32) -> BoundRef<'a>
    ensures { lent_bound_in result ≡ variable_bound binder (vars_in vars.now) }
{
    let mut scope = vars;
    while let Scope::Bind(place, bound, rest) = scope {
        if *place == binder {
            return *bound;
        }
        scope = rest;
    }
    BoundRef::Any
}

// The bound of a variable where it is seen.
#[inline(never)]
fn variable(
    alloc: Global,
    sight: &Sight<'_, '_>,
    binder: u32,
    target: &mut Bound,
) -> Result<(), Memory>
    ensures { OnOk result (any_bound_in target.new ≡ cut_to (flat_maybes (flat_seats_in sight.now.seats.now).near)
        (variable_bound binder (vars_in sight.now.vars.now))) }
{
    *target = cut_to_seats(alloc, &in_scope(sight.vars, binder), sight.seats)?;
    Ok(())
}

// The bound of a literal.
#[inline(never)]
fn literal(alloc: Global, value: &Local, target: &mut Bound) -> Result<(), Memory>
    ensures { OnOk result (any_bound_in target.new ≡ BoundLocal (exactly_of (local_of value.now))) }
{
    *target = Bound::Local(exactly(alloc, value)?);
    Ok(())
}

// The bound of an input.
#[inline(never)]
fn sensed(
    alloc: Global,
    inputs: &[LocalBound],
    index: u32,
    target: &mut Bound,
) -> Result<(), Memory>
    ensures { OnOk result (any_bound_in target.new
        ≡ BoundLocal (bound_of_input (slice_get (local_bounds_in inputs.now) index))) }
{
    match inputs.get(index as usize) {
        Some(bound) => {
            *target = Bound::Local(copy_bound(alloc, bound)?);
            Ok(())
        }
        None => {
            *target = Bound::Local(LocalBound::Unbounded);
            Ok(())
        }
    }
}

// The bound of the field of the links' weights.
#[inline(never)]
fn links(alloc: Global, seats: &Seats<'_>, least: u32, target: &mut Bound) -> Result<(), Memory>
    ensures { OnOk result (any_bound_in target.new ≡ BoundField (Between least least)
        (flat_entries flat_weight (flat_seats_in seats.now).near)) }
{
    *target = Bound::Field(seat_weights(alloc, seats, least)?);
    Ok(())
}

// The bound of the device's number, capped at the ceiling.
#[inline(never)]
fn uid(context: &Context<'_>, target: &mut Bound)
    ensures { any_bound_in target.new ≡ BoundLocal (Between
        (min context.now.device context.now.program.now.declared.ceiling)
        (min context.now.device context.now.program.now.declared.ceiling)) }
{
    let number = context.device.min(ceiling_of(context.program));
    *target = Bound::Local(LocalBound::Between(number, number));
}

// What the variable of an evolving value starts from, in place of the bound of its first value.
fn begin(
    alloc: Global,
    evolution: Evolution,
    seats: &Seats<'_>,
    slot: u32,
    start: &mut Bound,
) -> Result<(), Memory>
    requires { SlotsHave slot (flat_seats_in seats.now) }
    ensures { OnOk result (any_bound_in start.new ≡ started (evolution_in evolution) slot (flat_seats_in seats.now)
        (local_part (any_bound_in start.old))) }
{
    let own = own_or_first(alloc, seats, slot, take_local(start))?;
    match evolution {
        Evolution::Rep => {
            *start = Bound::Local(own);
            Ok(())
        }
        Evolution::Share => {
            *start = Bound::Field(seat_field(alloc, seats, slot, own)?);
            Ok(())
        }
    }
}

// The bound of the value of an `if`, out of those of the branches that may be taken.
#[inline(never)]
fn either_of(alloc: Global, first: Option<Bound>, second: Option<Bound>) -> Result<Bound, Memory>
    ensures { IfOk result (λ b. any_bound_in b ≡ one_of (maybe_in first) (maybe_in second)) }
{
    match (first, second) {
        (Some(Bound::Local(a)), Some(Bound::Local(b))) => Ok(Bound::Local(either(alloc, &a, &b)?)),
        (Some(a), None) => Ok(a),
        (None, Some(b)) => Ok(b),
        _ => Ok(Bound::Any),
    }
}

/// The bound of a local value, taken out of a bound; a field has none.
pub fn take_local(bound: &mut Bound) -> LocalBound
    ensures { local_bound_in result ≡ local_part (any_bound_in bound.old) }
{
    match bound {
        Bound::Local(local) => replace(local, LocalBound::Unbounded),
        Bound::Field(_) | Bound::Any => LocalBound::Unbounded,
    }
}

// Writes a slot.
fn put(draft: &mut [LocalBound], slot: u32, bound: LocalBound)
    requires { slot < length draft.old }
    ensures { local_bounds_in draft.new ≡ slice_set (local_bounds_in draft.old) slot (local_bound_in bound) }
{
    draft[slot as usize] = bound;
}
