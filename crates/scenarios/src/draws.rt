//! Values that are drawn from words, along the nodes of a program.

ghost use Rattle.std.specs.Prelude.{◌≡◌, ◌<◌, ◌≤◌, map, true, false, IfOk, Some};
ghost use Rattle.fc_values.specs.Types.{local_type_of};
ghost use Rattle.fc_values.specs.declared.limits.TheConstants.{GREATEST};
ghost use Rattle.fc_values.specs.Values.{local_of};
ghost use Rattle.fc_nodes.specs.Terms.{is_branching, node_keeps, sort_of, term_at, terms_by, view_at, view_of};
ghost use Rattle.fc_nodes.specs.Program.{IsProgram};
ghost use Rattle.fc_nodes.specs.Places.{StandsAt, StandAfter};
ghost use Rattle.scenarios.specs.Draws.{draw_truth, draw_value};
ghost use Rattle.scenarios.specs.Drawing.{DrawsAll, DrawsOwn, DrawsTerm};

use crate::words::next_word;
use fc_nodes::{Node, Op, Unfolded, is_if};
use fc_values::{Local, LocalTy, Memory, inner};
use rand_chacha::ChaCha8Rng;
use std::alloc::Global;

// A truth value: whether the next word is odd.
fn draw_truth(words: &mut ChaCha8Rng) -> bool
    ensures { (result, words.new) ≡ draw_truth words.old }
{
    next_word(words) % 2 == 1
}

/// A value of a type, with integers up to a ceiling.
pub fn draw_value(
    alloc: Global,
    ty: &LocalTy,
    ceiling: u32,
    words: &mut ChaCha8Rng,
) -> Result<Local, Memory>
    requires { ceiling ≤ GREATEST }
    ensures { IfOk result (λ v. (local_of v, words.new) ≡ draw_value ceiling (local_type_of ty.now) words.old) }
{
    match ty {
        LocalTy::Int => Ok(Local::Int(next_word(words) % (ceiling + 1))),
        LocalTy::Bool => Ok(Local::Bool(draw_truth(words))),
        LocalTy::Pair(a, b) => {
            let first = draw_value(alloc, a, ceiling, words)?;
            let second = draw_value(alloc, b, ceiling, words)?;
            Ok(Local::Pair(Box::new(alloc, first)?, Box::new(alloc, second)?))
        }
    }
}

/// Puts behind a list what the term at a place keeps.
#[cycle(draw_kept)]
pub fn draw_kept(
    alloc: Global,
    program: &Unfolded,
    place: u32,
    words: &mut ChaCha8Rng,
    list: &mut Vec<Local>,
) -> Result<(), Memory>
    requires { StandsAt program.now.nodes place }
    ensures { IfOk result (λ _. DrawsTerm program.now place words.old list.old.items list.new.items words.new) }
{
    let node = program.node(place);
    if is_if(node) {
        draw_branch(alloc, program, node, place, words, list)?;
        return Ok(());
    }
    draw_own(alloc, program, node, words, list)?;
    let kids = node.kids.as_slice();
    draw_kids(alloc, program, kids, place, words, list)?;
    Ok(())
}

// What an `if` keeps: its truth, and what its condition and the branch that the truth names keep.
#[cycle(draw_kept)]
fn draw_branch(
    alloc: Global,
    program: &Unfolded,
    node: &Node,
    place: u32,
    words: &mut ChaCha8Rng,
    list: &mut Vec<Local>,
) -> Result<(), Memory>
    requires formed { IsProgram program.now }
    requires stands { StandsAt program.now.nodes place }
    requires node { view_at program.now.nodes place ≡ Some (view_of node.now) }
    requires branching { is_branching (sort_of node.now.op) ≡ true }
    ensures { IfOk result (λ _. DrawsTerm program.now place words.old list.old.items list.new.items words.new) }
{
    let truth = draw_truth(words);
    list.push(Local::Bool(truth))?;
    draw_kept(alloc, program, node.kids[0], words, list)?;
    if truth {
        draw_kept(alloc, program, node.kids[1], words, list)?;
    } else {
        draw_kept(alloc, program, node.kids[2], words, list)?;
    }
    Ok(())
}

// What nodes keep one after another, all of them kids of the node at a place.
#[cycle(draw_kept)]
fn draw_kids(
    alloc: Global,
    program: &Unfolded,
    kids: &[u32],
    place: u32,
    words: &mut ChaCha8Rng,
    list: &mut Vec<Local>,
) -> Result<(), Memory>
    requires { StandAfter program.now.nodes place kids.now }
    ensures { IfOk result (λ _. DrawsAll program.now kids.now words.old list.old.items list.new.items words.new) }
{
    for kid in kids {
        draw_kept(alloc, program, *kid, words, list)?;
    }
    Ok(())
}

// What a node that is no `if` keeps itself, if it keeps something.
fn draw_own(
    alloc: Global,
    program: &Unfolded,
    node: &Node,
    words: &mut ChaCha8Rng,
    list: &mut Vec<Local>,
) -> Result<(), Memory>
    requires { is_branching (sort_of node.now.op) ≡ false }
    ensures { IfOk result (λ _.
        DrawsOwn program.now (node_keeps node.now) words.old list.old.items list.new.items words.new) }
{
    match &node.op {
        Op::Nbr | Op::Rep | Op::Share => {
            let ceiling = program.declared().ceiling;
            let value = draw_value(alloc, inner(&node.ty), ceiling, words)?;
            list.push(value)?;
            Ok(())
        }
        _ => Ok(()),
    }
}
