//! Reading a declaration.

ghost use Rattle.std.specs.Prelude.{◌≡◌, ◌<◌, ◌^◌, length};
ghost use Rattle.fc_syntax.specs.Terms.{declaration_of, term_of};
ghost use Rattle.fc_parser.specs.Expressions.{kinds_of};
ghost use Rattle.fc_parser.specs.Heads.{Gives, GivesWhole, finish_read, number_read};
ghost use Rattle.fc_parser.specs.Declarations.{Range, body_read, ceiling_read, declaration_read};
ghost use Rattle.fc_parser.specs.Declarations.{definition_read, input_read, input_type_read};
ghost use Rattle.fc_parser.specs.Declarations.{language_read, main_read, metric_read, range_of, range_read};

use crate::expressions::expression;
use crate::forms::{copy_name, expect, name};
use crate::refused::Refused;
use crate::types::{parameters, value_type};
use fc_lexer::{Kind, Mark, Token, Word};
use fc_syntax::{Decl, Expr};
use fc_values::{GREATEST, InputTy};
use std::alloc::Global;

/// The declaration that the tokens of a piece are, in language 2 or 1.
#[tactic(auto, unfolding(crate::specs::Declarations::declaration_read, crate::specs::Declarations::main_read))]
pub fn declaration(alloc: Global, second: bool, tokens: &[Token]) -> Result<Decl, Refused>
    requires { length tokens.now < 2 ^ 32 }
    ensures { GivesWhole declaration_of result (declaration_read second (kinds_of tokens.now)) }
{
    let [first, rest @ ..] = tokens else {
        return Err(Refused::Outside);
    };
    let Kind::Word(word) = first.kind else {
        return Err(Refused::Outside);
    };
    match word {
        Word::Language => language(rest),
        Word::Ceiling => ceiling(rest),
        Word::Input => input(alloc, rest),
        Word::Metric => metric(rest),
        Word::Def => definition(alloc, second, rest),
        Word::Main => Ok(Decl::Main(body(alloc, second, rest)?)),
        _ => Err(Refused::Outside),
    }
}

// What follows `language`.
#[tactic(auto, unfolding(crate::specs::Declarations::language_read))]
fn language(tokens: &[Token]) -> Result<Decl, Refused>
    ensures { GivesWhole declaration_of result (language_read (kinds_of tokens.now)) }
{
    let (language, rest) = number(tokens)?;
    finish(rest)?;
    if language == 2 {
        Ok(Decl::Language(2))
    } else {
        Err(Refused::Outside)
    }
}

// What follows `ceiling`.
#[tactic(auto, unfolding(crate::specs::Declarations::ceiling_read))]
fn ceiling(tokens: &[Token]) -> Result<Decl, Refused>
    ensures { GivesWhole declaration_of result (ceiling_read (kinds_of tokens.now)) }
{
    let (ceiling, rest) = number(tokens)?;
    finish(rest)?;
    Ok(Decl::Ceiling(ceiling))
}

// What follows `input`.
#[tactic(auto, unfolding(crate::specs::Declarations::input_read))]
fn input(alloc: Global, tokens: &[Token]) -> Result<Decl, Refused>
    ensures { GivesWhole declaration_of result (input_read (kinds_of tokens.now)) }
{
    let (name, rest) = name(tokens)?;
    let rest = expect(rest, Mark::Colon)?;
    let (ty, rest) = input_type(rest)?;
    finish(rest)?;
    Ok(Decl::Input(copy_name(alloc, name)?, ty))
}

// The type of an input, and the tokens after it.
#[tactic(auto, unfolding(crate::specs::Declarations::input_type_read))]
fn input_type(tokens: &[Token]) -> Result<(InputTy, &[Token]), Refused>
    ensures { Gives (λ t. t) result (input_type_read (kinds_of tokens.now)) }
{
    let [first, rest @ ..] = tokens else {
        return Err(Refused::Outside);
    };
    match first.kind {
        Kind::Word(Word::Bool) => Ok((InputTy::Truth, rest)),
        Kind::Word(Word::Int) => {
            let ((least, greatest), rest) = range(rest)?;
            Ok((InputTy::Whole(least, greatest), rest))
        }
        _ => Err(Refused::Outside),
    }
}

// What follows `metric`.
#[tactic(auto, unfolding(crate::specs::Declarations::metric_read))]
fn metric(tokens: &[Token]) -> Result<Decl, Refused>
    ensures { GivesWhole declaration_of result (metric_read (kinds_of tokens.now)) }
{
    let ((least, greatest), rest) = range(tokens)?;
    finish(rest)?;
    Ok(Decl::Metric(least, greatest))
}

// What follows `def`.
#[tactic(auto, unfolding(crate::specs::Declarations::definition_read))]
fn definition(alloc: Global, second: bool, tokens: &[Token]) -> Result<Decl, Refused>
    requires { length tokens.now < 2 ^ 32 }
    ensures { GivesWhole declaration_of result (definition_read second (kinds_of tokens.now)) }
{
    let (name, rest) = name(tokens)?;
    let rest = expect(rest, Mark::OpenRound)?;
    let (params, rest) = parameters(alloc, rest)?;
    let rest = expect(rest, Mark::CloseRound)?;
    let rest = expect(rest, Mark::Colon)?;
    let (result, rest) = value_type(alloc, rest)?;
    let body = body(alloc, second, rest)?;
    let name = copy_name(alloc, name)?;
    Ok(Decl::Def {
        name,
        params,
        result,
        body,
    })
}

// The expression behind `=`, which `;` ends.
#[tactic(auto, unfolding(crate::specs::Declarations::body_read))]
fn body(alloc: Global, second: bool, tokens: &[Token]) -> Result<Expr, Refused>
    requires { length tokens.now < 2 ^ 32 }
    ensures { GivesWhole term_of result (body_read second (kinds_of tokens.now)) }
{
    let rest = expect(tokens, Mark::Is)?;
    let (expr, rest) = expression(alloc, second, rest)?;
    finish(rest)?;
    Ok(expr)
}

// The least and the greatest number of a range, and the tokens after it.
#[tactic(auto, unfolding(crate::specs::Declarations::range_read))]
fn range(tokens: &[Token]) -> Result<((u32, u32), &[Token]), Refused>
    ensures { Gives range_of result (range_read (kinds_of tokens.now)) }
{
    let (least, rest) = number(tokens)?;
    let rest = expect(rest, Mark::Dots)?;
    let (greatest, rest) = number(rest)?;
    Ok(((least, greatest), rest))
}

// The number that stands in front, and the tokens after it.
#[tactic(auto, unfolding(crate::specs::Heads::number_read))]
fn number(tokens: &[Token]) -> Result<(u32, &[Token]), Refused>
    ensures { Gives (λ n. n) result (number_read (kinds_of tokens.now)) }
{
    let [first, rest @ ..] = tokens else {
        return Err(Refused::Outside);
    };
    match first.kind {
        Kind::Number(number) if number <= GREATEST => Ok((number, rest)),
        _ => Err(Refused::Outside),
    }
}

// The `;` stands here, and nothing after it.
#[tactic(auto, unfolding(crate::specs::Heads::finish_read))]
fn finish(tokens: &[Token]) -> Result<(), Refused>
    ensures { GivesWhole (λ u. tt) result (finish_read (kinds_of tokens.now)) }
{
    let rest = expect(tokens, Mark::Semi)?;
    if rest.is_empty() {
        Ok(())
    } else {
        Err(Refused::Outside)
    }
}
