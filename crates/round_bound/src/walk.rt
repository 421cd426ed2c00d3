//! The walk over a program's nodes.

ghost use Rattle.std.specs.Prelude.{◌≡◌, ◌<◌, ◌^◌, ◌++◌, ◌-◌, if◌then◌else◌, IfOk, OnOk, None, true};
ghost use Rattle.std.specs.List.{repeat};
ghost use Rattle.std.specs.Prelude.{[], ◌∷◌};
ghost use Rattle.fc_values.specs.Types.{type_of};
ghost use Rattle.fc_values.specs.BuiltinTypes.{is_field};
ghost use Rattle.fc_nodes.specs.Terms.{sort_of, is_branching};
ghost use Rattle.fc_nodes.specs.Sorts.{is_nbr_sort, is_evolve_sort, is_own_sort, is_let_sort};
ghost use Rattle.fc_nodes.specs.Places.{StandsAt};
ghost use Rattle.fragment_check.specs.Facts.{InRow};
ghost use Rattle.round_bound.specs.Walks.{Ready, AtNode, FoundAt, FoundAll, FoundBelow, leaf_level_by, is_apply_sort};

use crate::added::added;
use crate::scopes::{Context, Found, Position, Scope, bound_level};
use fc_nodes::{Node, Op, is_evolving, is_if, is_let, is_nbr, is_own, is_share};
use fc_values::{Memory, Ty};

/// Puts the levels of all nodes of the term at a place behind others, and finds the term's own.
#[cycle(walk)]
pub fn walk(
    context: &Context<'_>,
    place: u32,
    position: &Position<'_>,
    levels: &mut Vec<Option<u64>>,
) -> Result<Found, Memory>
    requires ready { Ready context.now place position.now }
    requires stands { StandsAt context.now.program.now.nodes place }
    ensures { IfOk result (λ f. FoundAt context.now place position.now f levels.old.items levels.new.items) }
{
    let node = context.program.node(place);
    let at = levels.len();
    levels.push(None)?;
    let found = below(context, place, node, position, levels)?;
    if !found.uses {
        levels[at] = Some(found.level);
    }
    Ok(found)
}

// Puts the levels of the nodes below a node behind others, and finds that of the node.
#[cycle(walk)]
fn below(
    context: &Context<'_>,
    place: u32,
    node: &Node,
    position: &Position<'_>,
    levels: &mut Vec<Option<u64>>,
) -> Result<Found, Memory>
    requires at { AtNode context.now place position.now node.now }
    ensures { IfOk result (λ f. FoundBelow context.now place position.now f levels.old.items levels.new.items) }
{
    if is_nbr(node) {
        return below_nbr(context, place, node, position, levels);
    }
    if is_if(node) {
        return below_if(context, place, node, position, levels);
    }
    if is_let(node) {
        return below_let(context, place, node, position, levels);
    }
    if is_evolving(node) {
        return below_evolving(context, place, node, position, levels);
    }
    if is_apply(node) {
        return walk_all(context, node.kids.as_slice(), place, position, levels);
    }
    Ok(leaf(node, position))
}

// Puts the levels of terms one after another behind others, and finds the greatest, which is at least that of the
// branch.
#[cycle(walk)]
fn walk_all(
    context: &Context<'_>,
    kids: &[u32],
    place: u32,
    position: &Position<'_>,
    levels: &mut Vec<Option<u64>>,
) -> Result<Found, Memory>
    requires ready { Ready context.now place position.now }
    requires row { InRow context.now.program.now.nodes place kids.now }
    ensures { IfOk result (λ f. FoundAll context.now kids.now position.now f levels.old.items levels.new.items) }
{
    let Some((first, rest)) = kids.split_first() else {
        return Ok(Found {
            level: position.branch,
            uses: false,
        });
    };
    let here = walk(context, *first, position, levels)?;
    let others = walk_all(context, rest, *first, position, levels)?;
    Ok(Found {
        level: here.level.max(others.level),
        uses: here.uses | others.uses,
    })
}

#[cycle(walk)]
fn below_nbr(
    context: &Context<'_>,
    place: u32,
    node: &Node,
    position: &Position<'_>,
    levels: &mut Vec<Option<u64>>,
) -> Result<Found, Memory>
    requires at { AtNode context.now place position.now node.now }
    requires nbr { is_nbr_sort (sort_of node.now.op) ≡ true }
    ensures { IfOk result (λ f. FoundBelow context.now place position.now f levels.old.items levels.new.items) }
{
    let inside = node.kids[0];
    let found = walk(context, inside, position, levels)?;
    let own = context.program.is_own(position.own, inside);
    Ok(Found {
        level: chosen(own, position.branch, found.level) + 1,
        uses: found.uses,
    })
}

#[cycle(walk)]
fn below_if(
    context: &Context<'_>,
    place: u32,
    node: &Node,
    position: &Position<'_>,
    levels: &mut Vec<Option<u64>>,
) -> Result<Found, Memory>
    requires at { AtNode context.now place position.now node.now }
    requires branching { is_branching (sort_of node.now.op) ≡ true }
    ensures { IfOk result (λ f. FoundBelow context.now place position.now f levels.old.items levels.new.items) }
{
    let condition = walk(context, node.kids[0], position, levels)?;
    let taken = Position {
        branch: condition.level,
        own: position.own,
        scope: position.scope,
    };
    let first = walk(context, node.kids[1], &taken, levels)?;
    let second = walk(context, node.kids[2], &taken, levels)?;
    Ok(Found {
        level: condition.level.max(first.level.max(second.level)),
        uses: condition.uses | (first.uses | second.uses),
    })
}

#[cycle(walk)]
fn below_let(
    context: &Context<'_>,
    place: u32,
    node: &Node,
    position: &Position<'_>,
    levels: &mut Vec<Option<u64>>,
) -> Result<Found, Memory>
    requires at { AtNode context.now place position.now node.now }
    requires binding { is_let_sort (sort_of node.now.op) ≡ true }
    ensures { IfOk result (λ f. FoundBelow context.now place position.now f levels.old.items levels.new.items) }
{
    let bound = walk(context, node.kids[0], position, levels)?;
    let scope = Scope::Bind(place, bound.level, position.scope);
    let inner = Position {
        branch: position.branch,
        own: position.own,
        scope: &scope,
    };
    let body = walk(context, node.kids[1], &inner, levels)?;
    Ok(Found {
        level: body.level,
        uses: bound.uses | body.uses,
    })
}

#[cycle(walk)]
fn below_evolving(
    context: &Context<'_>,
    place: u32,
    node: &Node,
    position: &Position<'_>,
    levels: &mut Vec<Option<u64>>,
) -> Result<Found, Memory>
    requires at { AtNode context.now place position.now node.now }
    requires evolving { is_evolve_sort (sort_of node.now.op) ≡ true }
    ensures { IfOk result (λ f. FoundBelow context.now place position.now f levels.old.items levels.new.items) }
{
    let body = node.kids[1];
    let inner = Position {
        branch: position.branch,
        own: place,
        scope: position.scope,
    };
    none_for(body - node.kids[0], levels)?;
    let found = walk(context, body, &inner, levels)?;
    Ok(Found {
        level: found.level + added(context, place, is_share(node)),
        uses: context.program.occurs(position.own, place),
    })
}

// The nodes of a first value have no level.
fn none_for(count: u32, levels: &mut Vec<Option<u64>>) -> Result<(), Memory>
    ensures { OnOk result (levels.new.items ≡ levels.old.items ++ repeat count (None ∷ [])) }
{
    let mut left = count;
    while left > 0 {
        levels.push(None)?;
        left -= 1;
    }
    Ok(())
}

// The level of what is under `nbr`, where that is the variable itself or anything else.
fn chosen(own: bool, branch: u64, inside: u64) -> u64
    ensures { result ≡ (if own then branch else inside) }
{
    if own { branch } else { inside }
}

// What is found of a node without kids.
fn leaf(node: &Node, position: &Position<'_>) -> Found
    requires { position.now.branch < 2 ^ 63 }
    ensures level { result.level ≡ leaf_level_by position.now (type_of node.now.ty) (sort_of node.now.op) }
    ensures uses { result.uses ≡ is_own_sort position.now.own (sort_of node.now.op) }
{
    Found {
        level: leaf_level(node, position),
        uses: is_own(node, position.own),
    }
}

// The level of a node without kids.
fn leaf_level(node: &Node, position: &Position<'_>) -> u64
    requires { position.now.branch < 2 ^ 63 }
    ensures { result ≡ leaf_level_by position.now (type_of node.now.ty) (sort_of node.now.op) }
{
    match &node.op {
        Op::NbrLink => position.branch + 1,
        Op::Var(binder) => {
            if *binder == position.own {
                position.branch + 1
            } else {
                let read = if is_field(&node.ty) {
                    position.branch + 1
                } else {
                    position.branch
                };
                read.max(bound_level(position.scope, *binder))
            }
        }
        _ => position.branch,
    }
}

fn is_field(ty: &Ty) -> bool
    ensures { result ≡ is_field (type_of ty.now) }
{
    match ty {
        Ty::Field(_) => true,
        Ty::Local(_) => false,
    }
}

fn is_apply(node: &Node) -> bool
    ensures { result ≡ is_apply_sort (sort_of node.now.op) }
{
    match &node.op {
        Op::Apply(_) => true,
        _ => false,
    }
}
