//! The ranges of a program's nodes, gathered in one walk.

ghost use Rattle.std.specs.Prelude.{◌≡◌, ◌+◌, ◌<◌, IfOk, length, slice_get};
ghost use Rattle.fc_values.specs.Types.{type_of};
ghost use Rattle.fc_values.specs.BuiltinTypes.{inner as inner_of};
ghost use Rattle.fc_nodes.specs.Terms.{sort_of, view_at, view_of};
ghost use Rattle.fc_nodes.specs.Program.{IsProgram, unfolding_of};
ghost use Rattle.interval_facts.specs.Ranges.{AreRangesOf, range_value, full as full_of, input_range as input_range_of, sense_range as sense_range_of};
ghost use Rattle.interval_facts.specs.Picks.{AreThere, ranges_in};
ghost use Rattle.interval_facts.specs.Steps.{kids_taken, step_range, variable_range as variable_range_of};
ghost use Rattle.interval_facts.specs.Gathering.{AreNext, Extends, IsNext, IsThere, end_of};
ghost use Rattle.interval_facts.specs.Laws.{SolutionsLieIn};

use crate::builtins::{builtin_range, range_at};
use crate::by_place::Ranges;
use crate::intervals::{Range, copy_range, full, hull, literal_range};
use fc_nodes::{Node, Op, Unfolded};
use fc_values::{InputTy, Memory, Ty, inner};
use std::alloc::Global;

/// The ranges of a program's nodes. Each field that solves the program on a network lies in them, outside the first
/// values of `rep` and `share`.
pub fn ranges(alloc: Global, program: &Unfolded) -> Result<Ranges, Memory>
    ensures ranges { IfOk result (λ r. AreRangesOf (unfolding_of program.now) r) }
    ensures solutions { IfOk result (λ r. SolutionsLieIn program.now r) }
{
    let mut list = Vec::with_capacity(alloc, program.size() as usize)?;
    gather(alloc, program, 0, &mut list)?;
    Ok(Ranges::new(list))
}

// Puts the ranges of the term at a place behind others. The place has its own range once its kids have theirs.
#[cycle(gather)]
fn gather(
    alloc: Global,
    program: &Unfolded,
    place: u32,
    list: &mut Vec<Range>,
) -> Result<(), Memory>
    requires { IsNext program.now place (ranges_in list.old.items) }
    ensures { IfOk result (λ _. Extends program.now (ranges_in list.old.items) (ranges_in list.new.items)
        (end_of program.now place)) }
{
    let node = program.node(place);
    list.push(Range::Bool)?;
    gather_kids(alloc, program, place, &node.kids, list)?;
    let range = own_range(alloc, program, node, list)?;
    list[place as usize] = range;
    Ok(())
}

// Puts the ranges of the last kids of the node at a place behind others.
#[cycle(gather)]
fn gather_kids(
    alloc: Global,
    program: &Unfolded,
    place: u32,
    kids: &[u32],
    list: &mut Vec<Range>,
) -> Result<(), Memory>
    requires { AreNext program.now place kids.now (ranges_in list.old.items) }
    ensures { IfOk result (λ _. Extends program.now (ranges_in list.old.items) (ranges_in list.new.items)
        (end_of program.now place)) }
{
    for kid in kids {
        gather(alloc, program, *kid, list)?;
    }
    Ok(())
}

// The range of a node, by those of the nodes on which it rests.
fn own_range(
    alloc: Global,
    program: &Unfolded,
    node: &Node,
    ranges: &[Range],
) -> Result<Range, Memory>
    requires kids { AreThere (length ranges.now) node.now.kids.items }
    requires taken { length node.now.kids.items ≡ kids_taken (sort_of node.now.op) }
    requires bound { IsThere program.now (length ranges.now) (sort_of node.now.op) }
    ensures { IfOk result (λ r. range_value r ≡ step_range program.now (ranges_in ranges.now) (view_of node.now)) }
{
    let declared = program.declared();
    let kids = node.kids.as_slice();
    match &node.op {
        Op::Lit(value) => literal_range(alloc, value),
        Op::Var(binder) => variable_range(alloc, program, *binder, ranges),
        Op::Sense(input) => sense_range(alloc, program, *input, &node.ty),
        Op::Uid => Ok(Range::Int(0, declared.ceiling)),
        Op::NbrLink => Ok(Range::Int(declared.metric.0, declared.metric.1)),
        Op::Apply(builtin) => {
            builtin_range(
                alloc,
                *builtin,
                inner(&node.ty),
                declared.ceiling,
                ranges,
                kids,
            )
        }
        Op::Nbr => copy_range(alloc, range_at(ranges, kids, 0)),
        Op::Rep | Op::Share | Op::Let => copy_range(alloc, range_at(ranges, kids, 1)),
        Op::If => hull(alloc, range_at(ranges, kids, 1), range_at(ranges, kids, 2)),
    }
}

// The range of a variable: that of what a `let` binds, which stands right behind it, and all values of the type of a
// `rep` or `share`.
fn variable_range(
    alloc: Global,
    program: &Unfolded,
    binder: u32,
    ranges: &[Range],
) -> Result<Range, Memory>
    requires bound { binder + 1 < length ranges.now }
    requires node { binder < length program.now.nodes }
    ensures { IfOk result (λ r. range_value r
        ≡ variable_range_of program.now.declared (ranges_in ranges.now) binder (view_at program.now.nodes binder)) }
{
    let node = program.node(binder);
    match &node.op {
        Op::Let => copy_range(alloc, &ranges[binder as usize + 1]),
        _ => full(alloc, inner(&node.ty), program.declared().ceiling),
    }
}

// The range of an input, by its number.
fn sense_range(alloc: Global, program: &Unfolded, input: u32, ty: &Ty) -> Result<Range, Memory>
    ensures { IfOk result (λ r. range_value r
        ≡ sense_range_of (full_of program.now.declared.ceiling (inner_of (type_of ty.now)))
        (slice_get program.now.declared.inputs input)) }
{
    let declared = program.declared();
    match declared.inputs.get(input as usize) {
        Some(declaration) => Ok(input_range(&declaration.ty)),
        None => full(alloc, inner(ty), declared.ceiling),
    }
}

// The range of a declared input.
fn input_range(ty: &InputTy) -> Range
    ensures { range_value result ≡ input_range_of ty.now }
{
    match ty {
        InputTy::Truth => Range::Bool,
        InputTy::Whole(least, greatest) => Range::Int(*least, *greatest),
    }
}
