//! Reading types and parameters.

ghost use Rattle.std.specs.Prelude.{◌≡◌};
ghost use Rattle.fc_values.specs.Types.{local_type_of, type_of};
ghost use Rattle.fc_syntax.specs.Terms.{parameter_of};
ghost use Rattle.fc_parser.specs.Expressions.{kinds_of};
ghost use Rattle.fc_parser.specs.Heads.{Gives};
ghost use Rattle.fc_parser.specs.Types.{local_read, pair_with, type_read, parameter_read, parameters_of};
ghost use Rattle.fc_parser.specs.Types.{parameters_read};

use crate::forms::{copy_name, expect, mark, name};
use crate::refused::Refused;
use fc_lexer::{Kind, Mark, Token, Word};
use fc_syntax::Param;
use fc_values::{LocalTy, Ty};
use std::alloc::Global;

// The local type that stands in front, and the tokens after it.
#[cycle(types)]
fn local(alloc: Global, tokens: &[Token]) -> Result<(LocalTy, &[Token]), Refused>
    ensures { Gives local_type_of result (local_read (kinds_of tokens.now)) }
{
    let [first, rest @ ..] = tokens else {
        return Err(Refused::Outside);
    };
    match first.kind {
        Kind::Word(Word::Int) => Ok((LocalTy::Int, rest)),
        Kind::Word(Word::Bool) => Ok((LocalTy::Bool, rest)),
        Kind::Mark(Mark::OpenRound) => pair(alloc, rest),
        _ => Err(Refused::Outside),
    }
}

// The pair of types behind a `(`, and the tokens after its `)`.
#[cycle(types)]
fn pair(alloc: Global, tokens: &[Token]) -> Result<(LocalTy, &[Token]), Refused>
    ensures { Gives local_type_of result (pair_with local_read (kinds_of tokens.now)) }
{
    let (first, rest) = local(alloc, tokens)?;
    let rest = expect(rest, Mark::Comma)?;
    let (second, rest) = local(alloc, rest)?;
    let rest = expect(rest, Mark::CloseRound)?;
    let first = Box::new(alloc, first)?;
    let second = Box::new(alloc, second)?;
    Ok((LocalTy::Pair(first, second), rest))
}

/// The type that stands in front, and the tokens after it.
#[tactic(auto, unfolding(crate::specs::Types::type_read))]
pub fn value_type(alloc: Global, tokens: &[Token]) -> Result<(Ty, &[Token]), Refused>
    ensures { Gives type_of result (type_read (kinds_of tokens.now)) }
{
    match tokens {
        [
            Token {
                kind: Kind::Word(Word::Field),
                ..
            },
            rest @ ..,
        ] => {
            let (ty, rest) = local(alloc, rest)?;
            Ok((Ty::Field(ty), rest))
        }
        _ => {
            let (ty, rest) = local(alloc, tokens)?;
            Ok((Ty::Local(ty), rest))
        }
    }
}

// The parameter that stands in front, and the tokens after it.
#[tactic(auto, unfolding(crate::specs::Types::parameter_read))]
fn parameter(alloc: Global, tokens: &[Token]) -> Result<(Param, &[Token]), Refused>
    ensures { Gives parameter_of result (parameter_read (kinds_of tokens.now)) }
{
    let (name, rest) = name(tokens)?;
    let rest = expect(rest, Mark::Colon)?;
    let (ty, rest) = value_type(alloc, rest)?;
    let name = copy_name(alloc, name)?;
    Ok((Param { name, ty }, rest))
}

/// The parameters that stand in front, if there are some, and the tokens after them.
pub fn parameters(alloc: Global, tokens: &[Token]) -> Result<(Vec<Param>, &[Token]), Refused>
    ensures { Gives parameters_of result (parameters_read (kinds_of tokens.now)) }
{
    let mut params = Vec::new(alloc);
    let Ok(_) = name(tokens) else {
        return Ok((params, tokens));
    };
    let (first, mut rest) = parameter(alloc, tokens)?;
    params.push(first)?;
    'more: while let Some(after) = mark(rest, Mark::Comma) {
        let (param, next) = parameter(alloc, after)?;
        params.push(param)?;
        rest = next;
    }
    Ok((params, rest))
}
