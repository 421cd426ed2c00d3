//! The values of closed terms. Terms that are the same are solved once.

ghost use Rattle.std.specs.Prelude.{◌≡◌, IfOk, IfSome, IsTrue, OnOk, map};
ghost use Rattle.fc_values.specs.Types.{LocalType, TypeLocal};
ghost use Rattle.fc_values.specs.Fields.{entry_of};
ghost use Rattle.fc_nodes.specs.Terms.{term_at, term_type};
ghost use Rattle.fc_nodes.specs.Places.{StandsAt};
ghost use Rattle.value_trees.specs.Copies.{WhereSome};
ghost use Rattle.closed_terms.specs.Parts.{IsClosedTerm, IsClosedPart};
ghost use Rattle.stable_field.specs.Columns.{AllKnown, IsColumn, IsJoin, IsKnown};

use crate::joining::joined;
use crate::whole::whole;
use closed_terms::{is_part, part, parts_solve};
use fc_nodes::{Op, Unfolded};
use fc_values::{Builtin, Local, Memory, Ty, copy};
use std::alloc::Global;
use topology::Network;

/// Values by rising devices.
pub type DeviceValues = Vec<(u32, Local)>;

/// A closed term as a program, with its values.
#[derive(Drop)]
pub struct ClosedProgram {
    pub program: Unfolded,
    pub values: DeviceValues,
}

/// A builtin of two terms of local type, by their places.
#[derive(Clone, Copy)]
pub struct Join {
    pub builtin: Builtin,
    pub first: u32,
    pub second: u32,
}

/// The values of the closed term at a place, which ends before another place; none where a part isn't recognised.
pub fn term_column(
    alloc: Global,
    program: &Unfolded,
    net: &Network,
    place: u32,
    end: u32,
    known: &mut Vec<ClosedProgram>,
) -> Result<Option<DeviceValues>, Memory>
    requires declared { net.now.declared ≡ program.now.declared }
    requires term { IsClosedTerm program.now place end }
    requires known { AllKnown program.now.declared net.now known.old.items }
    ensures column { IfOk result (WhereSome (λ v. IsColumn net.now place
        (term_at program.now.nodes place) (map entry_of v.items))) }
    ensures known { OnOk result (AllKnown program.now.declared net.now known.new.items) }
{
    let Some(join) = join_at(program, place) else {
        return Ok(closed_column(alloc, program, net, place, end, known)?);
    };
    let Some(first) = term_column(alloc, program, net, join.first, join.second, known)? else {
        return Ok(None);
    };
    let Some(second) = term_column(alloc, program, net, join.second, end, known)? else {
        return Ok(None);
    };
    let ceiling = program.declared().ceiling;
    Ok(Some(joined(alloc, join.builtin, ceiling, &first, &second)?))
}

/// The builtin of two terms of local type at a place, if there is one.
pub fn join_at(program: &Unfolded, place: u32) -> Option<Join>
    requires { StandsAt program.now.nodes place }
    ensures { IfSome result (λ j. IsJoin program.now place j.builtin j.first j.second) }
{
    let node = program.node(place);
    let Op::Apply(builtin) = &node.op else {
        return None;
    };
    if node.kids.len() != 2 {
        return None;
    }
    let first = node.kids[0];
    let second = node.kids[1];
    if is_local(program, first) && is_local(program, second) {
        Some(Join {
            builtin: *builtin,
            first,
            second,
        })
    } else {
        None
    }
}

fn is_local(program: &Unfolded, place: u32) -> bool
    requires { StandsAt program.now.nodes place }
    ensures { IsTrue result → (s : LocalType) × (term_type (term_at program.now.nodes place) ≡ TypeLocal s) }
{
    match &program.node(place).ty {
        Ty::Local(_) => true,
        Ty::Field(_) => false,
    }
}

// The values of a closed term that isn't taken apart.
fn closed_column(
    alloc: Global,
    program: &Unfolded,
    net: &Network,
    place: u32,
    end: u32,
    known: &mut Vec<ClosedProgram>,
) -> Result<Option<DeviceValues>, Memory>
    requires term { IsClosedTerm program.now place end }
    requires declared { net.now.declared ≡ program.now.declared }
    requires known { AllKnown program.now.declared net.now known.old.items }
    ensures known { OnOk result (AllKnown program.now.declared net.now known.new.items) }
    ensures column { IfOk result (WhereSome (λ v. IsColumn net.now place
        (term_at program.now.nodes place) (map entry_of v.items))) }
{
    parts_solve();
    if let Some(same) = find(program, net, place, end, known) {
        return Ok(Some(copied(alloc, &same.values)?));
    }
    let part = part(alloc, program, place, end)?;
    let Some(values) = whole(alloc, &part, net)? else {
        return Ok(None);
    };
    let copies = copied(alloc, &values)?;
    known.push(ClosedProgram {
        program: part,
        values,
    })?;
    Ok(Some(copies))
}

// The known program that is the closed term at a place.
fn find<'a>(
    program: &Unfolded,
    net: &Network,
    place: u32,
    end: u32,
    known: &'a [ClosedProgram],
) -> Option<&'a ClosedProgram>
    requires term { IsClosedTerm program.now place end }
    requires known { AllKnown program.now.declared net.now known.now }
    ensures part { IfSome result (λ k. IsClosedPart program.now place k.now.program) }
    ensures known { IfSome result (λ k. IsKnown program.now.declared net.now k.now) }
{
    let (first, rest) = known.split_first()?;
    if is_part(program, place, end, &first.program) {
        Some(first)
    } else {
        find(program, net, place, end, rest)
    }
}

// A copy of values.
fn copied(alloc: Global, values: &[(u32, Local)]) -> Result<DeviceValues, Memory>
    ensures { IfOk result (λ v. map entry_of v.items ≡ map entry_of values.now) }
{
    let mut list = Vec::with_capacity(alloc, values.len())?;
    for entry in values {
        list.push((entry.0, copy(alloc, &entry.1)?))?;
    }
    Ok(list)
}
