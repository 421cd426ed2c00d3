//! The nodes of a program.

ghost use Rattle.std.specs.Prelude.{◌≡◌, ◌≤◌, ◌<◌, ◌^◌, IfOk, IfErr, length, map, min};
ghost use Rattle.fc_values.specs.declared.limits.TheConstants.{MOST_NODES};
ghost use Rattle.fc_syntax.specs.Printable.{IsPrintable};
ghost use Rattle.fc_syntax.specs.Terms.{program_of};
ghost use Rattle.fc_types.specs.Before.{with_declarations, declared_by, nothing_declared};
ghost use Rattle.fc_types.specs.Views.{known_of};
ghost use Rattle.fc_nodes.specs.Program.{unfolding_of};
ghost use Rattle.fc_nodes.specs.Terms.{view_of};
ghost use Rattle.unfold.specs.Nodes.{Nodes};
ghost use Rattle.unfold.specs.Unfolding.{main_term};
ghost use Rattle.unfold.specs.Writing.{IfTooLarge};
ghost use Rattle.unfold.specs.declared.count.TheConstants.{MOST_COUNTED};

use crate::counting::{count_nodes, main_of, table};
use crate::faults::UnfoldFault;
use crate::scopes::{Scope, Surroundings};
use crate::writing::write;
use fc_nodes::{Node, Unfolded};
use fc_syntax::Program;
use fc_types::{Known, Typed};
use fc_values::{LocalTy, MOST_NODES, Memory, Ty};
use std::alloc::Global;

/// The nodes of a typed program: `main`, with each call replaced by one `let` per argument around the function's body.
/// A program with more than 2,048 nodes is refused before one is made.
pub fn unfold(alloc: Global, typed: &Typed) -> Result<Unfolded, UnfoldFault>
    ensures unfolding { IfOk result (λ u. unfolding_of u
        ≡ record {
          declared = declared_by (program_of typed.now.program);
          main = main_term
              (program_of typed.now.program);
        }) }
    ensures nodes { IfOk result (λ u. map view_of u.nodes ≡ Nodes (program_of typed.now.program)) }
    ensures small { IfOk result (λ u. length (Nodes (program_of typed.now.program)) ≤ MOST_NODES) }
    ensures large { IfErr result (λ fault. IfTooLarge fault (λ size.
        MOST_NODES < length (Nodes (program_of typed.now.program)))) }
    ensures size { IfErr result (λ fault. IfTooLarge fault (λ size.
        size ≡ min MOST_COUNTED (length (Nodes (program_of typed.now.program))))) }
{
    let program = typed.program();
    let known = table(alloc, program)?;
    let size = count_nodes(alloc, typed, &known)?;
    if size > MOST_NODES {
        return Err(UnfoldFault::TooLarge { size });
    }
    let nodes = nodes_of(alloc, &known, program)?;
    let declared = known.declared(alloc)?;
    Ok(Unfolded::new(alloc, declared, nodes)?)
}

// The nodes of `main`.
fn nodes_of(alloc: Global, known: &Known<'_>, program: &Program) -> Result<Vec<Node>, Memory>
    requires printable { IsPrintable (program_of program.now) }
    requires known { known_of known.now ≡ with_declarations nothing_declared (program_of program.now) }
    requires few { length program.now.decls.items < 2 ^ 32 }
    requires small { length (Nodes (program_of program.now)) ≤ MOST_NODES }
    ensures { IfOk result (λ nodes. map view_of nodes.items ≡ Nodes (program_of program.now)) }
{
    let mut nodes = Vec::new(alloc);
    let functions = known.functions.len();
    let around = Surroundings {
        known: &*known,
        visible: functions,
        scope: &Scope::Arguments(&[], &[]),
    };
    let mut ty = Ty::Local(LocalTy::Int);
    write(alloc, &around, main_of(program), &mut nodes, &mut ty)?;
    Ok(nodes)
}
