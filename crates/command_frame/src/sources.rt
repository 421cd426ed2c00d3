//! The program that the text of a section is.
ghost use Rattle.std.specs.Prelude.{◌≤◌, IfErr, IfOk, length};
ghost use Rattle.fc_values.specs.declared.limits.TheConstants.{MOST_BYTES};
ghost use Rattle.fc_syntax.specs.Printable.{IsPrintable};
ghost use Rattle.fc_syntax.specs.Terms.{program_of};
ghost use Rattle.fc_nodes.specs.Program.{unfolding_of};
ghost use Rattle.command_frame.specs.Causes.{Accepted, Refused};
ghost use Rattle.command_frame.specs.Sources.{ReadsSource, ReadsProgram};
ghost use Rattle.command_frame.specs.Stops.{StopsFor};

use crate::stop::Stop;
use fc_lexer::lex;
use fc_nodes::Unfolded;
use fc_parser::{derived_is_printable, few_declarations, parse};
use fc_syntax::Program;
use fc_types::check_types;
use std::alloc::Global;
use unfold::unfold;

/// The program that the tokens of a text derive.
pub fn read_source(alloc: Global, text: &[u8]) -> Result<Program, Stop>
    requires { length text.now ≤ MOST_BYTES }
    ensures source { IfOk result (λ p. ReadsSource text.now (Accepted (program_of p))) }
    ensures printable { IfOk result (λ p. IsPrintable (program_of p)) }
    ensures few { IfOk result (λ p. length p.decls.items ≤ MOST_BYTES) }
    ensures refused { IfErr result (StopsFor (λ cause. ReadsSource text.now (Refused cause))) }
{
    let tokens = lex(alloc, text)?;
    let program = parse(alloc, &tokens)?;
    derived_is_printable();
    few_declarations();
    Ok(program)
}

/// The program that a text is, typed and unfolded.
pub fn read_program(alloc: Global, text: &[u8]) -> Result<Unfolded, Stop>
    requires { length text.now ≤ MOST_BYTES }
    ensures program { IfOk result (λ u. ReadsProgram text.now (Accepted (unfolding_of u))) }
    ensures refused { IfErr result (StopsFor (λ cause. ReadsProgram text.now (Refused cause))) }
{
    let program = read_source(alloc, text)?;
    let typed = check_types(alloc, program)?;
    Ok(unfold(alloc, &typed)?)
}
