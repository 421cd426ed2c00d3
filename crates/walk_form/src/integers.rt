//! The integers of a term's field.

ghost use Rattle.std.specs.Prelude.{ℕ, ◌≡◌, IfOk, length, map};
ghost use Rattle.fc_values.specs.Fields.{entry_of};
ghost use Rattle.fc_values.specs.Values.{local_of};
ghost use Rattle.fc_nodes.specs.declared.verdicts.Verdict.TheVariants as verdict;
ghost use Rattle.fc_nodes.specs.Program.{unfolding_of};
ghost use Rattle.fc_nodes.specs.Terms.{term_at};
ghost use Rattle.fragment_check.specs.Verdicts.{verdict_of};
ghost use Rattle.walk_form.specs.Fields.{IsFieldAt, integer_in, integers_in};
ghost use Rattle.walk_form.specs.Parts.{IsWalkPart};

use crate::alone::alone;
use crate::forms::Span;
use converge_laws::{solutions_are_one, yes_analyses, yes_stabilises};
use fc_nodes::Unfolded;
use fc_values::{Local, Memory};
use stable_field::{StableFault, stable};
use std::alloc::Global;
use topology::Network;

/// The integers that the one field of a term has at all devices, rising: the stabilised field of the term's nodes
/// alone.
pub fn integers_at(
    alloc: Global,
    program: &Unfolded,
    net: &Network,
    term: Span,
) -> Result<Vec<(u32, u32)>, Memory>
    requires declared { net.now.declared ≡ program.now.declared }
    requires yes { (k : ℕ) × (verdict_of (unfolding_of program.now) (length net.now.devices) ≡ verdict.Yes k) }
    requires part { IsWalkPart program.now term }
    ensures { IfOk result (λ v. IsFieldAt net.now term.from (term_at program.now.nodes term.from) v.items) }
{
    // Their clauses: the nodes are a program, and the network is lawful.
    let _program = program.declared();
    let _network = net.declared();
    yes_analyses();
    yes_stabilises();
    solutions_are_one();
    let alone = alone(alloc, program, term)?;
    match stable(alloc, &alone, net) {
        Ok(field) => Ok(integers(alloc, &field)?),
        Err(StableFault::Unrecognised { .. }) => unreachable!(),
        Err(StableFault::Memory) => Err(Memory),
    }
}

// The integers of a field.
fn integers(alloc: Global, field: &[(u32, Local)]) -> Result<Vec<(u32, u32)>, Memory>
    ensures { IfOk result (λ v. v.items ≡ integers_in (map entry_of field.now)) }
{
    let mut list = Vec::with_capacity(alloc, field.len())?;
    for (device, value) in field {
        list.push((*device, integer(value)))?;
    }
    Ok(list)
}

// The integer of a value, and 0 of another one.
fn integer(value: &Local) -> u32
    ensures { result ≡ integer_in (local_of value.now) }
{
    match value {
        Local::Int(n) => *n,
        _ => 0,
    }
}
