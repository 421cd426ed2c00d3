//! Exports out of their kept values.

ghost use Rattle.std.specs.Prelude.{◌≡◌, ◌↔◌, IsTrue, MatchResult, IfErr, IfOk, Some, true};
ghost use Rattle.fc_values.specs.Types.{local_type_of};
ghost use Rattle.fc_values.specs.Values.{local_of};
ghost use Rattle.fc_nodes.specs.Terms.{is_branching, node_keeps, sort_of, view_at, view_of};
ghost use Rattle.fc_nodes.specs.Program.{unfolding_of, IsProgram};
ghost use Rattle.value_trees.specs.Walks.{FitsMain};
ghost use Rattle.fc_nodes.specs.Places.{StandsAt, StandAfter};
ghost use Rattle.value_trees.specs.KeptItems.{MayStand, kept_of};
ghost use Rattle.value_trees.specs.Filling.{FillsOwn, FillsSlot, FillsTerm, FillsTerms, IsFaultOf, IsFaultOfItems};
ghost use Rattle.value_trees.specs.Filling.{IsReadFrom, IsReadOffItems, IsTaken, OwnFault, TermFault, TermsFault};
ghost use Rattle.value_trees.specs.declared.reading.KeptFault.TheVariants as kept_fault;

use crate::items::{Item, names, plain_items};
use crate::walks::{both, truth_at};
use fc_nodes::{Node, Op, Unfolded, ceiling_of, is_if};
use fc_values::{Export, Local, LocalTy, Memory, Slot, Slots, blank_of, copy, fits, inner};
use std::alloc::{AllocError, AllocFailed, Global};

/// Why a list isn't the kept list of an export: it is short or has a misfit at a place, first in preorder, or it has
/// surplus values, and the place is then the number of nodes. Or there was no memory.
#[derive(Clone, Copy, Debug, PartialEq, Eq)]
pub enum KeptFault {
    At(u32),
    Memory,
}

impl From<Memory> for KeptFault {
    ghost from_gives = { λ _ fault. fault ≡ kept_fault.Memory };

    fn from(_: Memory) -> Self {
        KeptFault::Memory
    }
}

impl From<AllocError> for KeptFault {
    ghost from_gives = { λ _ fault. fault ≡ kept_fault.Memory };

    fn from(_: AllocError) -> Self {
        KeptFault::Memory
    }
}

impl<T: Drop> From<AllocFailed<T>> for KeptFault {
    ghost from_gives = { λ _ fault. fault ≡ kept_fault.Memory };

    fn from(_: AllocFailed<T>) -> Self {
        KeptFault::Memory
    }
}

/// A place of a program that is visited, and whether it is evaluated.
#[derive(Clone, Copy)]
pub struct Visit<'a> {
    pub program: &'a Unfolded,
    pub place: u32,
    pub taken: bool,
}

/// The export with a value and these kept values in preorder.
pub fn from_kept(
    alloc: Global,
    program: &Unfolded,
    value: Local,
    list: Vec<Local>,
) -> Result<Export, KeptFault>
    requires { FitsMain (unfolding_of program.now) (local_of value) }
    ensures { MatchResult result (IsReadFrom program.now value list.items) (IsFaultOf program.now list.items) }
{
    let items = plain_items(alloc, list)?;
    let export = from_items(alloc, program, value, &items)?;
    Ok(export)
}

/// The export with a value and the values of these items in preorder, each at the place that it names, if it names one.
pub fn from_items(
    alloc: Global,
    program: &Unfolded,
    value: Local,
    items: &[Item],
) -> Result<Export, KeptFault>
    requires { FitsMain (unfolding_of program.now) (local_of value) }
    ensures { MatchResult result (IsReadOffItems program.now value items.now) (IsFaultOfItems program.now items.now) }
{
    let size = program.size();
    let mut slots = Vec::new(alloc);
    let root = Visit {
        program,
        place: 0,
        taken: true,
    };
    let rest = fill(alloc, &root, items, &mut slots)?;
    if !rest.is_empty() {
        return Err(KeptFault::At(size));
    }
    Ok(Export {
        value,
        slots: Slots { list: slots },
    })
}

// Fills the slots of the term at a place, and gives the items that are left.
#[cycle(fill)]
fn fill<'a>(
    alloc: Global,
    visit: &Visit<'_>,
    list: &'a [Item],
    slots: &mut Vec<Slot>,
) -> Result<&'a [Item], KeptFault>
    requires { StandsAt visit.now.program.now.nodes visit.now.place }
    ensures { MatchResult result
        (FillsTerm visit.now list.now slots.old.items slots.new.items) (TermFault visit.now list.now) }
{
    let node = visit.program.node(visit.place);
    if is_if(node) {
        let filled = fill_if(alloc, visit, node, list, slots)?;
        return Ok(filled);
    }
    let left = fill_own(alloc, visit, node, list, slots)?;
    let kids = node.kids.as_slice();
    let filled = fill_kids(alloc, visit, kids, left, slots)?;
    Ok(filled)
}

// Fills the slots of an `if`: blank ones in the branch that its truth doesn't name.
#[cycle(fill)]
fn fill_if<'a>(
    alloc: Global,
    visit: &Visit<'_>,
    node: &Node,
    list: &'a [Item],
    slots: &mut Vec<Slot>,
) -> Result<&'a [Item], KeptFault>
    requires formed { IsProgram visit.now.program.now }
    requires stands { StandsAt visit.now.program.now.nodes visit.now.place }
    requires node { view_at visit.now.program.now.nodes visit.now.place ≡ Some (view_of node.now) }
    requires branching { is_branching (sort_of node.now.op) ≡ true }
    ensures { MatchResult result
        (FillsTerm visit.now list.now slots.old.items slots.new.items) (TermFault visit.now list.now) }
{
    let at = slots.len();
    let own = fill_slot(alloc, visit, &LocalTy::Bool, list, slots)?;
    let truth = truth_at(slots.as_slice(), at);
    let condition = Visit {
        program: visit.program,
        place: node.kids[0],
        taken: visit.taken,
    };
    let first = fill(alloc, &condition, own, slots)?;
    let chosen = Visit {
        program: visit.program,
        place: node.kids[1],
        taken: both(visit.taken, truth),
    };
    let second = fill(alloc, &chosen, first, slots)?;
    let other = Visit {
        program: visit.program,
        place: node.kids[2],
        taken: both(visit.taken, !truth),
    };
    let third = fill(alloc, &other, second, slots)?;
    Ok(third)
}

// Fills the slots of nodes one after another, all of them kids of the node at a place.
#[cycle(fill)]
fn fill_kids<'a>(
    alloc: Global,
    visit: &Visit<'_>,
    kids: &[u32],
    list: &'a [Item],
    slots: &mut Vec<Slot>,
) -> Result<&'a [Item], KeptFault>
    requires { StandAfter visit.now.program.now.nodes visit.now.place kids.now }
    ensures { MatchResult result
        (FillsTerms visit.now kids.now list.now slots.old.items slots.new.items)
        (TermsFault visit.now kids.now list.now) }
{
    let mut left = list;
    for kid in kids {
        let next = Visit {
            program: visit.program,
            place: *kid,
            taken: visit.taken,
        };
        left = fill(alloc, &next, left, slots)?;
    }
    Ok(left)
}

// Fills the slot of a node itself, if it keeps something.
fn fill_own<'a>(
    alloc: Global,
    visit: &Visit<'_>,
    node: &Node,
    list: &'a [Item],
    slots: &mut Vec<Slot>,
) -> Result<&'a [Item], KeptFault>
    ensures filled { IfOk result
        (FillsOwn visit.now (node_keeps node.now) list.now slots.old.items slots.new.items) }
    ensures fault { IfErr result (OwnFault visit.now (node_keeps node.now) list.now) }
{
    match &node.op {
        Op::Nbr | Op::Rep | Op::Share => {
            let rest = fill_slot(alloc, visit, inner(&node.ty), list, slots)?;
            Ok(rest)
        }
        Op::If => {
            let rest = fill_slot(alloc, visit, &LocalTy::Bool, list, slots)?;
            Ok(rest)
        }
        _ => Ok(list),
    }
}

// Fills a slot with the first value, or with a blank one in a branch that isn't taken.
fn fill_slot<'a>(
    alloc: Global,
    visit: &Visit<'_>,
    ty: &LocalTy,
    list: &'a [Item],
    slots: &mut Vec<Slot>,
) -> Result<&'a [Item], KeptFault>
    ensures filled { IfOk result
        (FillsSlot visit.now (local_type_of ty.now) list.now slots.old.items slots.new.items) }
    ensures fault { IfErr result (OwnFault visit.now (Some (local_type_of ty.now)) list.now) }
    ensures first { IfOk result (IsTaken visit.now list.now slots.old.items slots.new.items) }
{
    if !visit.taken {
        let value = blank_of(alloc, ty)?;
        slots.push(Slot { kept: false, value })?;
        return Ok(list);
    }
    let Some((first, rest)) = list.split_first() else {
        return Err(KeptFault::At(visit.place));
    };
    let ceiling = ceiling_of(visit.program);
    if !may_stand(visit.place, ceiling, ty, first) {
        return Err(KeptFault::At(visit.place));
    }
    let value = copy(alloc, &first.value)?;
    slots.push(Slot { kept: true, value })?;
    Ok(rest)
}

// Whether an item may stand at a place that keeps a value of a type.
fn may_stand(place: u32, ceiling: u32, ty: &LocalTy, item: &Item) -> bool
    ensures { IsTrue result ↔ MayStand place ceiling (local_type_of ty.now) (kept_of item.now) }
{
    names(place, item.place) && fits(ty, &item.value, ceiling)
}
