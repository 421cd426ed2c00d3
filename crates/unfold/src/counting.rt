//! How many nodes a program has.

ghost use Rattle.std.specs.Prelude.{◌≡◌, IfOk, length, min};
ghost use Rattle.fc_syntax.specs.Printable.{IsPrintable};
ghost use Rattle.fc_syntax.specs.Terms.{program_of, term_of};
ghost use Rattle.fc_types.specs.Before.{with_declarations, nothing_declared};
ghost use Rattle.fc_types.specs.Typing.{IsTyped};
ghost use Rattle.fc_types.specs.Views.{known_of};
ghost use Rattle.unfold.specs.Nodes.{Nodes};
ghost use Rattle.unfold.specs.Unfolding.{main_expression};
ghost use Rattle.unfold.specs.Views.{AreCapped};
ghost use Rattle.unfold.specs.declared.count.TheConstants.{MOST_COUNTED};

use crate::count::count;
use fc_syntax::{Decl, Expr, Program};
use fc_types::{Known, Typed};
use fc_values::Memory;
use std::alloc::Global;

/// The number of nodes of a typed program, from the table of what it declares, or 1,000,000 where it is greater. No
/// node is made.
pub fn count_nodes(alloc: Global, typed: &Typed, known: &Known<'_>) -> Result<u32, Memory>
    requires { known_of known.now ≡ with_declarations nothing_declared (program_of typed.now.program) }
    ensures { IfOk result (λ n. n ≡ min MOST_COUNTED (length (Nodes (program_of typed.now.program)))) }
{
    let program = typed.program();
    let counts = body_counts(alloc, known)?;
    Ok(count(known, &counts, main_of(program)))
}

/// What a program declares.
pub fn table(alloc: Global, program: &Program) -> Result<Known<'_>, Memory>
    requires { IsTyped (program_of program.now) }
    ensures { IfOk result (λ known. known_of known ≡ with_declarations nothing_declared (program_of program.now)) }
{
    let mut known = Known::new(alloc);
    for decl in &program.decls {
        known.declare(decl)?;
    }
    Ok(known)
}

// The number of nodes of the body of each function.
fn body_counts(alloc: Global, known: &Known<'_>) -> Result<Vec<u32>, Memory>
    ensures long { IfOk result (λ counts. length counts.items ≡ length (known_of known.now).functions) }
    ensures capped { IfOk result (λ counts. AreCapped (known_of known.now) counts.items) }
{
    let mut counts = Vec::with_capacity(alloc, known.functions.len())?;
    for (_, function) in &known.functions {
        let own = count(known, &counts, function.body);
        counts.push(own)?;
    }
    Ok(counts)
}

/// The expression of `main`.
pub fn main_of(program: &Program) -> &Expr
    requires { IsPrintable (program_of program.now) }
    ensures { term_of result.now ≡ main_expression (program_of program.now) }
{
    for decl in &program.decls {
        if let Decl::Main(expr) = decl {
            return expr;
        }
    }
    unreachable!()
}
