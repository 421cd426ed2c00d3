//! Reading an expression.

ghost use Rattle.std.specs.Prelude.{◌≡◌, ◌+◌, ◌<◌, ◌≤◌, ◌^◌, length, OnOk};
ghost use Rattle.fc_lexer.specs.Kinds.{tokens_of};
ghost use Rattle.fc_syntax.specs.Terms.{term_of};
ghost use Rattle.fc_parser.specs.Programs.{kinds};
ghost use Rattle.fc_parser.specs.Expressions.{GivesArguments, GivesExpression, arguments_with};
ghost use Rattle.fc_parser.specs.Expressions.{atom_with, binding_with, bracketed_with, builtin_with};
ghost use Rattle.fc_parser.specs.Expressions.{WritesBinding, WritesExpression, choice_with, named_with};
ghost use Rattle.fc_parser.specs.Expressions.{enclosed_with, expression_at, expression_read, fold_with};
ghost use Rattle.fc_parser.specs.Expressions.{kinds_of, nested, operations_with, unary_with, word_with};

use crate::forms::{
    add, add_binding, after_let, apply_two, arity, binder, builtin_of, copy_name, expect,
    expect_in, has_builtin, make_call, make_choice, make_fold, make_links, make_nbr, make_sense,
    make_truth, make_uid, make_variable, mark, name, negate, nots, operator,
};
use crate::refused::Refused;
use fc_lexer::{Kind, Mark, Token, Word};
use fc_syntax::Expr;
use fc_values::{Builtin, GREATEST, Memory, Name};
use std::alloc::Global;
use std::mem::replace;

// The strength of a comparison.
const COMPARISON: u32 = 3;

// The strength of `not`.
const NOT: u32 = 6;

/// The expression that stands in front, of language 2 or 1, and the tokens after it.
pub fn expression<'a>(
    alloc: Global,
    second: bool,
    tokens: &'a [Token],
) -> Result<(Expr, &'a [Token]), Refused>
    requires { length tokens.now < 2 ^ 32 }
    ensures { GivesExpression result (expression_read second (kinds (tokens_of tokens.now))) }
{
    let mut whole = Expr::Uid;
    let rest = expression_within(alloc, second, tokens.len() + 1, tokens, &mut whole)?;
    Ok((whole, rest))
}

// Writes an expression over another, in which fewer expressions than the budget are nested in one another. What `let`
// binds and its body count as nested in it. There may be hundreds of brackets around it: each function writes what it
// reads into the place where it will stand, and so takes little of the stack.
#[cycle(expressions)]
fn expression_within<'a>(
    alloc: Global,
    second: bool,
    budget: usize,
    tokens: &'a [Token],
    target: &mut Expr,
) -> Result<&'a [Token], Refused>
    ensures { WritesExpression result target.new (expression_at second budget (kinds_of tokens.now)) }
{
    let mut left = budget;
    let mut rest = tokens;
    let mut bindings = Vec::new(alloc);
    'bindings: while left > 0 {
        left -= 1;
        let Some(after) = after_let(rest) else {
            let rest = operations(alloc, second, left, 1, rest, target)?;
            bind_all(alloc, bindings, target)?;
            return Ok(rest);
        };
        let mut bound = Expr::Uid;
        let (name, next) = binding(alloc, second, left, after, &mut bound)?;
        add_binding(&mut bindings, name, bound)?;
        rest = next;
    }
    Err(Refused::Outside)
}

// `NAME = expr in`
#[cycle(expressions)]
#[tactic(auto, unfolding(crate::specs::Expressions::binding_with))]
#[inline(never)]
fn binding<'a>(
    alloc: Global,
    second: bool,
    budget: usize,
    tokens: &'a [Token],
    target: &mut Expr,
) -> Result<(Name, &'a [Token]), Refused>
    ensures { WritesBinding result target.new (binding_with (expression_at second budget) (kinds_of tokens.now)) }
{
    let (name, rest) = name(tokens)?;
    let rest = expect(rest, Mark::Is)?;
    let rest = expression_within(alloc, second, budget, rest, target)?;
    let rest = expect_in(rest)?;
    Ok((copy_name(alloc, name)?, rest))
}

// Puts a body behind these bindings.
#[inline(never)]
fn bind_all(alloc: Global, mut bindings: Vec<(Name, Expr)>, body: &mut Expr) -> Result<(), Memory>
    ensures { OnOk result (term_of body.new ≡ nested bindings.items (term_of body.old)) }
{
    let mut whole = replace(body, Expr::Uid);
    'bindings: while let Some((name, bound)) = bindings.pop() {
        whole = Expr::Let(name, Box::new(alloc, bound)?, Box::new(alloc, whole)?);
    }
    *body = whole;
    Ok(())
}

// An expression at a place that asks this strength. A comparison stands alone, and other operators follow one another.
#[cycle(expressions)]
fn operations<'a>(
    alloc: Global,
    second: bool,
    budget: usize,
    strength: u32,
    tokens: &'a [Token],
    target: &mut Expr,
) -> Result<&'a [Token], Refused>
    requires { strength ≤ 6 }
    ensures { WritesExpression result target.new
        (operations_with (atom_with second (expression_at second budget)) strength (kinds_of tokens.now)) }
{
    if strength == NOT {
        return unary(alloc, second, budget, tokens, target);
    }
    let mut rest = operations(alloc, second, budget, strength + 1, tokens, target)?;
    let mut turns = if strength == COMPARISON {
        1
    } else {
        rest.len()
    };
    'turns: while turns > 0 {
        let Some((builtin, after)) = operator(rest, strength) else {
            return Ok(rest);
        };
        let mut right = Expr::Uid;
        rest = operations(alloc, second, budget, strength + 1, after, &mut right)?;
        apply_two(alloc, builtin, target, right)?;
        turns -= 1;
    }
    Ok(rest)
}

// `{ not } atom`
#[cycle(expressions)]
#[tactic(auto, unfolding(crate::specs::Expressions::unary_with))]
#[inline(never)]
fn unary<'a>(
    alloc: Global,
    second: bool,
    budget: usize,
    tokens: &'a [Token],
    target: &mut Expr,
) -> Result<&'a [Token], Refused>
    ensures { WritesExpression result target.new
        (unary_with (atom_with second (expression_at second budget)) (kinds_of tokens.now)) }
{
    let (many, rest) = nots(tokens);
    let rest = atom(alloc, second, budget, rest, target)?;
    negate(alloc, target, many)?;
    Ok(rest)
}

// An atom.
#[cycle(expressions)]
#[tactic(auto, unfolding(crate::specs::Expressions::atom_with))]
#[inline(never)]
fn atom<'a>(
    alloc: Global,
    second: bool,
    budget: usize,
    tokens: &'a [Token],
    target: &mut Expr,
) -> Result<&'a [Token], Refused>
    ensures { WritesExpression result target.new
        (atom_with second (expression_at second budget) (kinds_of tokens.now)) }
{
    let [first, rest @ ..] = tokens else {
        return Err(Refused::Outside);
    };
    match &first.kind {
        Kind::Number(n) if *n <= GREATEST => {
            *target = Expr::Int(*n);
            Ok(rest)
        }
        Kind::Word(word) => word_form(alloc, second, budget, *word, rest, target),
        Kind::Name(name) => named(alloc, second, budget, name, rest, target),
        Kind::Mark(Mark::OpenRound) => bracketed(alloc, second, budget, rest, target),
        _ => Err(Refused::Outside),
    }
}

// A call of this name, where brackets follow it, or else the variable.
#[cycle(expressions)]
#[tactic(auto, unfolding(crate::specs::Expressions::named_with))]
#[inline(never)]
fn named<'a>(
    alloc: Global,
    second: bool,
    budget: usize,
    name: &Name,
    tokens: &'a [Token],
    target: &mut Expr,
) -> Result<&'a [Token], Refused>
    ensures { WritesExpression result target.new
        (named_with (expression_at second budget) name.now.text.items (kinds_of tokens.now)) }
{
    match mark(tokens, Mark::OpenRound) {
        Some(rest) => {
            let (args, rest) = arguments(alloc, second, budget, rest)?;
            make_call(alloc, name, args, target)?;
            Ok(rest)
        }
        None => {
            make_variable(alloc, name, target)?;
            Ok(tokens)
        }
    }
}

// The form that begins with this word.
#[cycle(expressions)]
#[tactic(auto, unfolding(crate::specs::Expressions::word_with))]
#[inline(never)]
fn word_form<'a>(
    alloc: Global,
    second: bool,
    budget: usize,
    word: Word,
    tokens: &'a [Token],
    target: &mut Expr,
) -> Result<&'a [Token], Refused>
    ensures { WritesExpression result target.new
        (word_with second (expression_at second budget) word (kinds_of tokens.now)) }
{
    match word {
        Word::True => {
            make_truth(true, target);
            Ok(tokens)
        }
        Word::False => {
            make_truth(false, target);
            Ok(tokens)
        }
        Word::Uid => {
            make_uid(target);
            Ok(tokens)
        }
        Word::NbrLink => {
            make_links(target);
            Ok(tokens)
        }
        Word::Sense => {
            let (name, rest) = name(tokens)?;
            make_sense(alloc, name, target)?;
            Ok(rest)
        }
        Word::Nbr => {
            let marks = (Mark::OpenCurly, Mark::CloseCurly);
            let rest = enclosed(alloc, second, budget, marks, tokens, target)?;
            make_nbr(alloc, target)?;
            Ok(rest)
        }
        Word::Rep => fold(alloc, second, budget, false, tokens, target),
        Word::Share if second => fold(alloc, second, budget, true, tokens, target),
        Word::Share => Err(Refused::Outside),
        Word::If => choice(alloc, second, budget, tokens, target),
        _ => builtin(alloc, second, budget, builtin_of(word), tokens, target),
    }
}

// A builtin, where the word names one, and its arguments.
#[cycle(expressions)]
#[tactic(auto, unfolding(crate::specs::Expressions::builtin_with))]
#[inline(never)]
fn builtin<'a>(
    alloc: Global,
    second: bool,
    budget: usize,
    word: Option<Builtin>,
    tokens: &'a [Token],
    target: &mut Expr,
) -> Result<&'a [Token], Refused>
    ensures { WritesExpression result target.new
        (builtin_with second (expression_at second budget) word (kinds_of tokens.now)) }
{
    let Some(builtin) = word else {
        return Err(Refused::Outside);
    };
    if !has_builtin(second, builtin) {
        return Err(Refused::Outside);
    }
    let rest = expect(tokens, Mark::OpenRound)?;
    let (args, rest) = arguments(alloc, second, budget, rest)?;
    if args.len() == arity(builtin) {
        *target = Expr::Apply(builtin, args);
        Ok(rest)
    } else {
        Err(Refused::Outside)
    }
}

// `[ expr { , expr } ] )`
#[cycle(expressions)]
#[inline(never)]
fn arguments<'a>(
    alloc: Global,
    second: bool,
    budget: usize,
    tokens: &'a [Token],
) -> Result<(Vec<Expr>, &'a [Token]), Refused>
    ensures { GivesArguments result (arguments_with (expression_at second budget) (kinds_of tokens.now)) }
{
    let mut args = Vec::new(alloc);
    if let Some(rest) = mark(tokens, Mark::CloseRound) {
        return Ok((args, rest));
    }
    let mut first = Expr::Uid;
    let mut rest = expression_within(alloc, second, budget, tokens, &mut first)?;
    add(&mut args, first)?;
    let mut turns = rest.len();
    'turns: while turns > 0 {
        let Some(after) = mark(rest, Mark::Comma) else {
            break;
        };
        let mut arg = Expr::Uid;
        rest = expression_within(alloc, second, budget, after, &mut arg)?;
        add(&mut args, arg)?;
        turns -= 1;
    }
    let rest = expect(rest, Mark::CloseRound)?;
    Ok((args, rest))
}

// `( expr ) { ( NAME ) => expr }`, of `share` or `rep`.
#[cycle(expressions)]
#[tactic(auto, unfolding(crate::specs::Expressions::fold_with))]
#[inline(never)]
fn fold<'a>(
    alloc: Global,
    second: bool,
    budget: usize,
    shared: bool,
    tokens: &'a [Token],
    target: &mut Expr,
) -> Result<&'a [Token], Refused>
    ensures { WritesExpression result target.new
        (fold_with shared (expression_at second budget) (kinds_of tokens.now)) }
{
    let marks = (Mark::OpenRound, Mark::CloseRound);
    let mut first = Expr::Uid;
    let rest = enclosed(alloc, second, budget, marks, tokens, &mut first)?;
    let (name, rest) = binder(rest)?;
    let rest = expression_within(alloc, second, budget, rest, target)?;
    let rest = expect(rest, Mark::CloseCurly)?;
    make_fold(alloc, shared, first, name, target)?;
    Ok(rest)
}

// `( expr ) { expr } { expr }`
#[cycle(expressions)]
#[tactic(auto, unfolding(crate::specs::Expressions::choice_with))]
#[inline(never)]
fn choice<'a>(
    alloc: Global,
    second: bool,
    budget: usize,
    tokens: &'a [Token],
    target: &mut Expr,
) -> Result<&'a [Token], Refused>
    ensures { WritesExpression result target.new (choice_with (expression_at second budget) (kinds_of tokens.now)) }
{
    let round = (Mark::OpenRound, Mark::CloseRound);
    let curly = (Mark::OpenCurly, Mark::CloseCurly);
    let mut then = Expr::Uid;
    let mut other = Expr::Uid;
    let rest = enclosed(alloc, second, budget, round, tokens, target)?;
    let rest = enclosed(alloc, second, budget, curly, rest, &mut then)?;
    let rest = enclosed(alloc, second, budget, curly, rest, &mut other)?;
    make_choice(alloc, target, then, other)?;
    Ok(rest)
}

// `expr )` or `expr , expr )`
#[cycle(expressions)]
#[tactic(auto, unfolding(crate::specs::Expressions::bracketed_with))]
#[inline(never)]
fn bracketed<'a>(
    alloc: Global,
    second: bool,
    budget: usize,
    tokens: &'a [Token],
    target: &mut Expr,
) -> Result<&'a [Token], Refused>
    ensures { WritesExpression result target.new (bracketed_with (expression_at second budget) (kinds_of tokens.now)) }
{
    let rest = expression_within(alloc, second, budget, tokens, target)?;
    match mark(rest, Mark::Comma) {
        Some(after) => {
            let mut other = Expr::Uid;
            let rest = expression_within(alloc, second, budget, after, &mut other)?;
            let rest = expect(rest, Mark::CloseRound)?;
            apply_two(alloc, Builtin::Pair, target, other)?;
            Ok(rest)
        }
        None => expect(rest, Mark::CloseRound),
    }
}

// An expression between two marks.
#[cycle(expressions)]
#[tactic(auto, unfolding(crate::specs::Expressions::enclosed_with))]
#[inline(never)]
fn enclosed<'a>(
    alloc: Global,
    second: bool,
    budget: usize,
    marks: (Mark, Mark),
    tokens: &'a [Token],
    target: &mut Expr,
) -> Result<&'a [Token], Refused>
    ensures { WritesExpression result target.new
        (enclosed_with marks.0 marks.1 (expression_at second budget) (kinds_of tokens.now)) }
{
    let rest = expect(tokens, marks.0)?;
    let rest = expression_within(alloc, second, budget, rest, target)?;
    expect(rest, marks.1)
}
