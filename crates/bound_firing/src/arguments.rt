//! Arguments of builtins: bounds that are made for them, and those that binders in scope hold.

ghost use Rattle.std.specs.Prelude.{ℕ, [], ◌∷◌, ◌≡◌, IfOk, IfSome, IsTrue, OnOk};
ghost use Rattle.fc_values.specs.Types.{type_of};
ghost use Rattle.fc_nodes.specs.Terms.{HasNode, OfApply};
ghost use Rattle.device_eval.specs.Walks.{Stands};
ghost use Rattle.value_bounds.specs.BoundValues.{Both};
ghost use Rattle.value_bounds.specs.BoundBuiltins.{BoundLocal, builtin_bound};
ghost use Rattle.value_bounds.specs.References.{any_bound_in, any_bounds_in, lent_bound_in, lent_bounds_in};
ghost use Rattle.value_bounds.specs.References.{local_bound_in};
ghost use Rattle.bound_firing.specs.Firing.{local_part};
ghost use Rattle.bound_firing.specs.Contexts.{IsHeld, IsMade, argument_in};
ghost use Rattle.bound_firing.specs.Held.{is_local as is_bound_of_local};

use crate::evaluation::{Context, Sight, in_scope, take_local};
use crate::seating::as_it_is;
use fc_nodes::{Node, Op, ceiling_of};
use fc_values::{Builtin, Memory};
use std::alloc::Global;
use value_bounds::{Bound, BoundRef, LocalBound, bound_of_builtin, copy_bound, lend};

/// The bound of an argument: held by a binder in scope, or else made for it.
#[derive(Drop)]
pub struct Argument<'a> {
    pub held: Option<BoundRef<'a>>,
    pub made: Bound,
}

/// An argument of which nothing is known yet.
pub fn empty_argument<'a>() -> Argument<'a> {
    Argument {
        held: None,
        made: Bound::Any,
    }
}

/// The bound of an argument, to be looked at.
pub fn seen<'a>(argument: &'a Argument<'_>) -> BoundRef<'a>
    ensures { lent_bound_in result ≡ argument_in argument.now }
{
    match &argument.held {
        Some(bound) => *bound,
        None => lend(&argument.made),
    }
}

/// The bound of the node at a place, if a binder in scope holds it: that of a variable, or of a component of one.
#[cycle(held)]
#[inline(always)]
pub fn held<'a>(context: &Context<'_>, place: u32, sight: &Sight<'a, '_>) -> Option<BoundRef<'a>>
    requires { Stands context.now.program.now.nodes context.now.layout.now place }
    ensures { IfSome result (λ b. IsHeld context.now place sight.now (lent_bound_in b)) }
{
    let node = context.program.node(place);
    match &node.op {
        Op::Var(binder) => as_it_is(&in_scope(sight.vars, *binder), sight.seats),
        Op::Apply(builtin) if takes_apart(*builtin) => {
            held_component(context, place, node, *builtin, sight)
        }
        _ => None,
    }
}

// The same of a component, apart so that `held` may be inlined.
#[cycle(held)]
#[inline(never)]
fn held_component<'a>(
    context: &Context<'_>,
    place: u32,
    node: &Node,
    builtin: Builtin,
    sight: &Sight<'a, '_>,
) -> Option<BoundRef<'a>>
    requires stands { Stands context.now.program.now.nodes context.now.layout.now place }
    requires node { HasNode context.now.program.now.nodes place (OfApply builtin) (type_of node.now.ty)
        node.now.kids.items }
    ensures { IfSome result (λ b. IsHeld context.now place sight.now (lent_bound_in b)) }
{
    let [kid] = node.kids.as_slice() else {
        return None;
    };
    let whole = held(context, *kid, sight)?;
    component(builtin, &whole)
}

// Whether a builtin gives a component of a pair.
fn takes_apart(builtin: Builtin) -> bool {
    match builtin {
        Builtin::Fst | Builtin::Snd => true,
        _ => false,
    }
}

// The component of a pair that a builtin gives.
fn component<'a>(builtin: Builtin, whole: &BoundRef<'a>) -> Option<BoundRef<'a>>
    ensures { IfSome result (λ b. (m d : ℕ)
        → lent_bound_in b ≡ builtin_bound builtin m d (lent_bound_in whole.now ∷ [])) }
{
    match whole {
        BoundRef::Local(local) => {
            let part = local_component(builtin, local)?;
            Some(BoundRef::Local(part))
        }
        _ => None,
    }
}

fn local_component<'a>(builtin: Builtin, local: &'a LocalBound) -> Option<&'a LocalBound>
    ensures { IfSome result (λ b. (m d : ℕ) → BoundLocal (local_bound_in b.now)
        ≡ builtin_bound builtin m d (BoundLocal (local_bound_in local.now) ∷ [])) }
{
    match (builtin, local) {
        (Builtin::Fst, LocalBound::Both(first, _)) => Some(first),
        (Builtin::Snd, LocalBound::Both(_, second)) => Some(second),
        _ => None,
    }
}

/// Writes what a builtin makes of one argument over another bound.
pub fn of_one(
    alloc: Global,
    context: &Context<'_>,
    builtin: Builtin,
    a: BoundRef<'_>,
    target: &mut Bound,
) -> Result<(), Memory>
    ensures { OnOk result (IsMade context.now builtin (lent_bound_in a.entry ∷ []) target.new) }
{
    let ceiling = ceiling_of(context.program);
    *target = bound_of_builtin(alloc, builtin, &[a], context.device, ceiling)?;
    Ok(())
}

/// Writes what a builtin makes of one argument over the bound of the argument.
pub fn make_one(
    alloc: Global,
    context: &Context<'_>,
    builtin: Builtin,
    target: &mut Bound,
) -> Result<(), Memory>
    ensures { OnOk result (IsMade context.now builtin (any_bound_in target.old ∷ []) target.new) }
{
    let ceiling = ceiling_of(context.program);
    *target = bound_of_builtin(alloc, builtin, &[lend(target)], context.device, ceiling)?;
    Ok(())
}

/// Writes what a builtin makes of two arguments, which it may take over, over another bound.
pub fn make_two(
    alloc: Global,
    context: &Context<'_>,
    builtin: Builtin,
    a: &mut Argument<'_>,
    b: &mut Argument<'_>,
    target: &mut Bound,
) -> Result<(), Memory>
    ensures { OnOk result (IsMade context.now builtin (argument_in a.old ∷ argument_in b.old ∷ []) target.new) }
{
    if makes_pair(builtin, a, b) {
        *target = paired(alloc, a, b)?;
        return Ok(());
    }
    let first = seen(a);
    let second = seen(b);
    of_two(alloc, context, builtin, first, second, target)
}

// Writes what a builtin makes of two arguments over another bound.
fn of_two<'a>(
    alloc: Global,
    context: &Context<'_>,
    builtin: Builtin,
    a: BoundRef<'a>,
    b: BoundRef<'a>,
    target: &mut Bound,
) -> Result<(), Memory>
    ensures { OnOk result (IsMade context.now builtin (lent_bound_in a.entry ∷ lent_bound_in b.entry ∷ []) target.new) }
{
    let ceiling = ceiling_of(context.program);
    *target = bound_of_builtin(alloc, builtin, &[a, b], context.device, ceiling)?;
    Ok(())
}

/// Writes what a builtin makes of three arguments over another bound.
pub fn make_three(
    alloc: Global,
    context: &Context<'_>,
    builtin: Builtin,
    a: &Argument<'_>,
    b: &Argument<'_>,
    c: &Argument<'_>,
    target: &mut Bound,
) -> Result<(), Memory>
    ensures { OnOk result (IsMade context.now builtin
        (argument_in a.now ∷ argument_in b.now ∷ argument_in c.now ∷ []) target.new) }
{
    let ceiling = ceiling_of(context.program);
    let args = [seen(a), seen(b), seen(c)];
    *target = bound_of_builtin(alloc, builtin, &args, context.device, ceiling)?;
    Ok(())
}

// Whether a builtin makes a pair of two local values, which takes over what was made for it.
fn makes_pair(builtin: Builtin, a: &Argument<'_>, b: &Argument<'_>) -> bool
    ensures { IsTrue result → (m d : ℕ) → builtin_bound builtin m d (argument_in a.now ∷ argument_in b.now ∷ [])
        ≡ BoundLocal (Both (local_part (argument_in a.now)) (local_part (argument_in b.now))) }
{
    match builtin {
        Builtin::Pair => is_local(a) && is_local(b),
        _ => false,
    }
}

// The pair of two arguments that are local values.
fn paired(alloc: Global, a: &mut Argument<'_>, b: &mut Argument<'_>) -> Result<Bound, Memory>
    ensures { IfOk result (λ r. any_bound_in r
        ≡ BoundLocal (Both (local_part (argument_in a.old)) (local_part (argument_in b.old)))) }
{
    let first = Box::new(alloc, taken(alloc, a)?)?;
    let second = Box::new(alloc, taken(alloc, b)?)?;
    Ok(Bound::Local(LocalBound::Both(first, second)))
}

// Whether an argument is a local value.
fn is_local(argument: &Argument<'_>) -> bool
    ensures { result ≡ is_bound_of_local (argument_in argument.now) }
{
    match seen(argument) {
        BoundRef::Local(_) => true,
        BoundRef::Field(_) | BoundRef::Any => false,
    }
}

// The bound of an argument that is a local value, taken out of it.
fn taken(alloc: Global, argument: &mut Argument<'_>) -> Result<LocalBound, Memory>
    ensures { IfOk result (λ b. local_bound_in b ≡ local_part (argument_in argument.old)) }
{
    match &argument.held {
        Some(BoundRef::Local(bound)) => copy_bound(alloc, bound),
        Some(_) => Ok(LocalBound::Unbounded),
        None => Ok(take_local(&mut argument.made)),
    }
}

/// Bounds, to be looked at.
pub fn lend_all<'a>(alloc: Global, bounds: &'a [Bound]) -> Result<Vec<BoundRef<'a>>, Memory>
    ensures { IfOk result (λ v. lent_bounds_in v.items ≡ any_bounds_in bounds.now) }
{
    let mut lent = Vec::with_capacity(alloc, bounds.len())?;
    for bound in bounds {
        lent.push(lend(bound))?;
    }
    Ok(lent)
}
