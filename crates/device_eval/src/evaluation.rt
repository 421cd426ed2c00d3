//! The evaluation of a program's nodes on a stack of words: the value of a node is added behind the words.

ghost use Rattle.std.specs.Prelude.{◌≡◌, ◌≤◌, IsSome, OnOk, Some, length, map, min, slice_get, slice_index};
ghost use Rattle.fc_values.specs.Values.{local_of};
ghost use Rattle.fc_nodes.specs.Terms.{OfApply, OfNbr, OfEvolve, ByRep, ByShare, OfIf, OfLet};
ghost use Rattle.alignment.specs.References.{flat_of};
ghost use Rattle.alignment.specs.Slots.{NearHave, OwnHas, flat_branch};
ghost use Rattle.device_eval.specs.Evaluation.{pick};
ghost use Rattle.device_eval.specs.Contexts.{ReadyIn, ReadyFor, Evaluated, EvaluatedBody, EvaluatedKids, ReadyKids};

use crate::builtins::{apply_builtin, fill_rows, rows_of};
use crate::drafts::Draft;
use alignment::{Env, own_or, same_branch};
use fc_nodes::{Layout, Node, Op, Unfolded, ceiling_of, least_weight, slot_of};
use fc_values::{Builtin, Local, Memory, inner};
use scope_columns::{
    Binder, Scope, Sight, is_field, own_row, push_heard, push_links, push_variable,
};
use smallvec::SmallVec;
use std::alloc::Global;
use value_columns::{close_gap, push_value, value_at};

/// What is evaluated: a program with its layout, at the device that fires, with the inputs of its copy.
#[derive(Clone, Copy)]
pub struct Context<'a> {
    pub program: &'a Unfolded,
    pub layout: &'a Layout,
    pub device: u32,
    pub inputs: &'a [Local],
}

/// Evaluates a node: its value behind the words, and its slots in the draft. Programs may be thousands of nodes deep, so
/// each kind of node has a function of its own, and a level takes little of the stack.
#[cycle(eval)]
pub fn eval(
    alloc: Global,
    words: &mut Vec<u32>,
    context: &Context<'_>,
    place: u32,
    sight: &Sight<'_, '_>,
    draft: &mut Draft,
) -> Result<(), Memory>
    requires { ReadyIn context.now place sight.now words.old.items draft.old }
    ensures { OnOk result (Evaluated context.now place sight.now words.old.items draft.old words.new.items draft.new) }
{
    let node = context.program.node(place);
    match &node.op {
        Op::Lit(value) => {
            push_value(words, value)?;
            Ok(())
        }
        Op::Var(binder) => {
            push_variable(alloc, words, sight, *binder, context.device)?;
            Ok(())
        }
        Op::Sense(input) => {
            push_value(words, input_at(context.inputs, *input))?;
            Ok(())
        }
        Op::Uid => {
            words.push(uid(context.device, context.program))?;
            Ok(())
        }
        Op::NbrLink => {
            let least = least_weight(context.program);
            push_links(words, sight, context.device, least)?;
            Ok(())
        }
        Op::Apply(builtin) => eval_apply(
            alloc, words, context, place, node, *builtin, sight, draft,
        ),
        Op::Nbr => eval_nbr(alloc, words, context, place, node, sight, draft),
        Op::Rep => eval_rep(alloc, words, context, place, node, sight, draft),
        Op::Share => eval_share(alloc, words, context, place, node, sight, draft),
        Op::If => eval_if(alloc, words, context, place, node, sight, draft),
        Op::Let => eval_let(alloc, words, context, place, node, sight, draft),
    }
}

#[cycle(eval)]
#[inline(never)]
fn eval_apply(
    alloc: Global,
    words: &mut Vec<u32>,
    context: &Context<'_>,
    place: u32,
    node: &Node,
    builtin: Builtin,
    sight: &Sight<'_, '_>,
    draft: &mut Draft,
) -> Result<(), Memory>
    requires { ReadyFor context.now place sight.now node.now (OfApply builtin) words.old.items draft.old }
    ensures { OnOk result (Evaluated context.now place sight.now words.old.items draft.old words.new.items draft.new) }
{
    let at = words.len();
    let devices = sight.env.near.len() + 1;
    let rows = rows_of(&node.ty, devices);
    eval_kids(alloc, words, context, &node.kids, rows, sight, draft)?;
    apply_builtin(
        words,
        context.program,
        node,
        builtin,
        devices,
        sight.own,
        at,
    );
    Ok(())
}

// Evaluates nodes one after another: their values stand behind the words, a local value in each of so many rows.
#[cycle(eval)]
fn eval_kids(
    alloc: Global,
    words: &mut Vec<u32>,
    context: &Context<'_>,
    kids: &[u32],
    rows: usize,
    sight: &Sight<'_, '_>,
    draft: &mut Draft,
) -> Result<(), Memory>
    requires { ReadyKids context.now kids.now sight.now words.old.items draft.old }
    ensures { OnOk result (EvaluatedKids context.now kids.now sight.now rows words.old.items draft.old words.new.items
        draft.new) }
{
    let Some((first, rest)) = kids.split_first() else {
        return Ok(());
    };
    let at = words.len();
    eval(alloc, words, context, *first, sight, draft)?;
    fill_rows(words, &context.program.node(*first).ty, at, rows)?;
    eval_kids(alloc, words, context, rest, rows, sight, draft)?;
    Ok(())
}

#[cycle(eval)]
#[inline(never)]
fn eval_nbr(
    alloc: Global,
    words: &mut Vec<u32>,
    context: &Context<'_>,
    place: u32,
    node: &Node,
    sight: &Sight<'_, '_>,
    draft: &mut Draft,
) -> Result<(), Memory>
    requires { ReadyFor context.now place sight.now node.now OfNbr words.old.items draft.old }
    ensures { OnOk result (Evaluated context.now place sight.now words.old.items draft.old words.new.items draft.new) }
{
    let slot = slot_of(context.layout, place);
    let at = words.len();
    eval(alloc, words, context, node.kids[0], sight, draft)?;
    let ty = inner(&node.ty);
    let own = value_at(alloc, words, ty, 1, at, 0)?;
    words.truncate(at);
    push_heard(words, ty, sight, slot, context.device, &own)?;
    draft.put(slot, own);
    Ok(())
}

#[cycle(eval)]
#[inline(never)]
fn eval_rep(
    alloc: Global,
    words: &mut Vec<u32>,
    context: &Context<'_>,
    place: u32,
    node: &Node,
    sight: &Sight<'_, '_>,
    draft: &mut Draft,
) -> Result<(), Memory>
    requires { ReadyFor context.now place sight.now node.now (OfEvolve ByRep) words.old.items draft.old }
    ensures { OnOk result (Evaluated context.now place sight.now words.old.items draft.old words.new.items draft.new) }
{
    let slot = slot_of(context.layout, place);
    let start = node.kids[0];
    let next = node.kids[1];
    let at = words.len();
    eval(alloc, words, context, start, sight, draft)?;
    let ty = inner(&node.ty);
    let first = value_at(alloc, words, ty, 1, at, 0)?;
    words.truncate(at);
    push_value(words, own_or(sight.env, slot, &first))?;
    let evolving = Scope::Bind(
        Binder {
            place,
            at,
            ty,
            is_field: false,
            env: sight.env,
        },
        sight.vars,
    );
    let body = Sight {
        env: sight.env,
        own: sight.own,
        vars: &evolving,
    };
    eval_body(alloc, words, context, next, at, &body, draft)?;
    let kept = value_at(alloc, words, ty, 1, at, 0)?;
    draft.put(slot, kept);
    Ok(())
}

#[cycle(eval)]
#[inline(never)]
fn eval_share(
    alloc: Global,
    words: &mut Vec<u32>,
    context: &Context<'_>,
    place: u32,
    node: &Node,
    sight: &Sight<'_, '_>,
    draft: &mut Draft,
) -> Result<(), Memory>
    requires { ReadyFor context.now place sight.now node.now (OfEvolve ByShare) words.old.items draft.old }
    ensures { OnOk result (Evaluated context.now place sight.now words.old.items draft.old words.new.items draft.new) }
{
    let slot = slot_of(context.layout, place);
    let start = node.kids[0];
    let next = node.kids[1];
    let at = words.len();
    eval(alloc, words, context, start, sight, draft)?;
    let ty = inner(&node.ty);
    let first = value_at(alloc, words, ty, 1, at, 0)?;
    words.truncate(at);
    push_heard(
        words,
        ty,
        sight,
        slot,
        context.device,
        own_or(sight.env, slot, &first),
    )?;
    let hearing = Scope::Bind(
        Binder {
            place,
            at,
            ty,
            is_field: true,
            env: sight.env,
        },
        sight.vars,
    );
    let body = Sight {
        env: sight.env,
        own: sight.own,
        vars: &hearing,
    };
    eval_body(alloc, words, context, next, at, &body, draft)?;
    let kept = value_at(alloc, words, ty, 1, at, 0)?;
    draft.put(slot, kept);
    Ok(())
}

#[cycle(eval)]
#[inline(never)]
fn eval_let(
    alloc: Global,
    words: &mut Vec<u32>,
    context: &Context<'_>,
    place: u32,
    node: &Node,
    sight: &Sight<'_, '_>,
    draft: &mut Draft,
) -> Result<(), Memory>
    requires { ReadyFor context.now place sight.now node.now OfLet words.old.items draft.old }
    ensures { OnOk result (Evaluated context.now place sight.now words.old.items draft.old words.new.items draft.new) }
{
    let start = node.kids[0];
    let next = node.kids[1];
    let at = words.len();
    eval(alloc, words, context, start, sight, draft)?;
    let bound = context.program.node(start);
    let inside = Scope::Bind(
        Binder {
            place,
            at,
            ty: inner(&bound.ty),
            is_field: is_field(&bound.ty),
            env: sight.env,
        },
        sight.vars,
    );
    let body = Sight {
        env: sight.env,
        own: sight.own,
        vars: &inside,
    };
    eval_body(alloc, words, context, next, at, &body, draft)?;
    Ok(())
}

// Evaluates the body of a binder whose value stands from a place on as the last of the words, and takes that value out.
#[cycle(eval)]
fn eval_body(
    alloc: Global,
    words: &mut Vec<u32>,
    context: &Context<'_>,
    place: u32,
    at: usize,
    sight: &Sight<'_, '_>,
    draft: &mut Draft,
) -> Result<(), Memory>
    requires ready { ReadyIn context.now place sight.now words.old.items draft.old }
    requires within { at ≤ length words.old.items }
    ensures { OnOk result (EvaluatedBody context.now place at sight.now words.old.items draft.old words.new.items
        draft.new) }
{
    let many = words.len() - at;
    eval(alloc, words, context, place, sight, draft)?;
    close_gap(words, at, many);
    Ok(())
}

#[cycle(eval)]
#[inline(never)]
fn eval_if(
    alloc: Global,
    words: &mut Vec<u32>,
    context: &Context<'_>,
    place: u32,
    node: &Node,
    sight: &Sight<'_, '_>,
    draft: &mut Draft,
) -> Result<(), Memory>
    requires { ReadyFor context.now place sight.now node.now OfIf words.old.items draft.old }
    ensures { OnOk result (Evaluated context.now place sight.now words.old.items draft.old words.new.items draft.new) }
{
    let slot = slot_of(context.layout, place);
    let at = words.len();
    eval(alloc, words, context, node.kids[0], sight, draft)?;
    let truth = words[at] != 0;
    words.truncate(at);
    let mut branch = Env {
        own: None,
        near: SmallVec::new(alloc),
    };
    take_branch(alloc, sight.env, slot, truth, &mut branch)?;
    let kid = branch_of(&node.kids, truth);
    let taken = Sight {
        env: &branch,
        own: own_row(&branch, context.device),
        vars: sight.vars,
    };
    eval(alloc, words, context, kid, &taken, draft)?;
    draft.put(slot, Local::Bool(truth));
    Ok(())
}

// Puts the exports that took the same branch into a place of the caller. They are the largest thing that a level has on
// the stack: what is on the way to that place lies in a frame of its own.
#[inline(never)]
fn take_branch<'a>(
    alloc: Global,
    env: &Env<'a>,
    slot: u32,
    truth: bool,
    branch: &mut Env<'a>,
) -> Result<(), Memory>
    requires own { OwnHas slot (flat_of env.now).own }
    requires near { NearHave slot (flat_of env.now).near }
    ensures { OnOk result (flat_of branch.new ≡ flat_branch slot truth (flat_of env.now)) }
{
    *branch = same_branch(alloc, env, slot, truth)?;
    Ok(())
}

// An input of a copy.
fn input_at(inputs: &[Local], index: u32) -> &Local
    requires { IsSome (slice_get (map local_of inputs.now) index) }
    ensures { slice_get (map local_of inputs.now) index ≡ Some (local_of result.now) }
{
    &inputs[index as usize]
}

// A device's number, cut at the ceiling.
fn uid(device: u32, program: &Unfolded) -> u32
    ensures { result ≡ min device program.now.declared.ceiling }
{
    device.min(ceiling_of(program))
}

// The place of the branch that a truth value names.
fn branch_of(kids: &[u32], truth: bool) -> u32
    requires { length kids.now ≡ 3 }
    ensures { result ≡ slice_index kids.now (pick truth 1 2) }
{
    if truth { kids[1] } else { kids[2] }
}
