//! The program of a list of tokens.

ghost use Rattle.std.specs.Prelude.{◌≡◌, ◌<◌, ◌^◌, IfOk, IfErr, length};
ghost use Rattle.fc_lexer.specs.Kinds.{tokens_of};
ghost use Rattle.fc_syntax.specs.Terms.{program_of};
ghost use Rattle.fc_parser.specs.Programs.{Derives};
ghost use Rattle.fc_parser.specs.Faults.{Parses, Refuses};
ghost use Rattle.fc_parser.specs.Places.{IsFault};

use crate::ParseFault;
use crate::limits::judge_limits;
use crate::pieces::{first_line, first_piece, last_line};
use crate::places::{Position, standing};
use crate::refused::Refused;
use fc_lexer::Token;
use fc_syntax::Program;
use std::alloc::Global;

/// The program that the tokens derive, or the first declaration that passes a limit, or else the first that is at
/// fault.
pub fn parse(alloc: Global, tokens: &[Token]) -> Result<Program, ParseFault>
    requires { length tokens.now < 2 ^ 32 }
    ensures parses { IfOk result (λ p. Parses (tokens_of tokens.now) (program_of p)) }
    ensures refuses { IfErr result (λ f. Refuses (tokens_of tokens.now) f) }
{
    judge_limits(tokens)?;
    derive(alloc, tokens)
}

// The program that the tokens derive, or the first declaration that is at fault.
fn derive(alloc: Global, tokens: &[Token]) -> Result<Program, ParseFault>
    requires { length tokens.now < 2 ^ 32 }
    ensures derives { IfOk result (λ p. Derives (tokens_of tokens.now) (program_of p)) }
    ensures fault { IfErr result (λ f. IsFault (tokens_of tokens.now) f) }
{
    let mut decls = Vec::new(alloc);
    let mut position = Position::First;
    let mut declaration = 1;
    let mut line = 1;
    let mut rest = tokens;
    'pieces: while !rest.is_empty() {
        let (piece, after) = first_piece(rest);
        let (decl, next) = match standing(alloc, position, piece) {
            Ok(standing) => standing,
            Err(Refused::Outside) => return Err(ParseFault::Syntax {
                declaration,
                line: first_line(piece),
            }),
            Err(Refused::Memory) => return Err(ParseFault::Memory),
        };
        decls.push(decl)?;
        position = next;
        declaration += 1;
        line = last_line(line, piece);
        rest = after;
    }
    match position {
        Position::AfterMain(_) => Ok(Program { decls }),
        _ => Err(ParseFault::Syntax { declaration, line }),
    }
}
