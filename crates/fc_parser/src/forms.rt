//! Small functions that read and build the parts of expressions.

ghost use Rattle.std.specs.Prelude.{◌≡◌, IfOk, OnOk, true, ◌+◌, ◌≤◌, length, map, [], ◌∷◌, ◌++◌};
ghost use Rattle.fc_lexer.specs.Kinds.{kind_view};
ghost use Rattle.fc_values.specs.BuiltinTypes.{arity as arity_of};
ghost use Rattle.fc_syntax.specs.Terms.{ApplyTerm, CallTerm, IfTerm, NbrLinkTerm, NbrTerm, SenseTerm};
ghost use Rattle.fc_syntax.specs.Terms.{TruthTerm, UidTerm, VarTerm, term_of, terms};
ghost use Rattle.fc_parser.specs.Expressions.{GivesAfter, GivesName, GivesOperator, GivesRest, after_nots};
ghost use Rattle.fc_parser.specs.Expressions.{binder_read, count_nots, fold_term, has_builtin as has, in_read};
ghost use Rattle.fc_parser.specs.Expressions.{kinds_of, let_read, mark_read, name_read, negated, not_read};
ghost use Rattle.fc_parser.specs.Expressions.{operator_read};
ghost use Rattle.fc_parser.specs.Grammar.{named, one, operator as operator_of_kind, two};

use crate::refused::Refused;
use fc_lexer::{Kind, Mark, Token, Word};
use fc_syntax::{Expr, builtin_strength};
use fc_values::{Builtin, Memory, Name};
use std::alloc::Global;
use std::mem::replace;

/// What follows this mark, if it stands in front.
#[tactic(auto, unfolding(crate::specs::Expressions::mark_read))]
pub fn mark(tokens: &[Token], wanted: Mark) -> Option<&[Token]>
    ensures { GivesAfter result (mark_read wanted (kinds_of tokens.now)) }
{
    let [
        Token {
            kind: Kind::Mark(mark),
            ..
        },
        after @ ..,
    ] = tokens
    else {
        return None;
    };
    if *mark == wanted { Some(after) } else { None }
}

/// What follows this mark.
pub fn expect(tokens: &[Token], wanted: Mark) -> Result<&[Token], Refused>
    ensures { GivesRest result (mark_read wanted (kinds_of tokens.now)) }
{
    match mark(tokens, wanted) {
        Some(after) => Ok(after),
        None => Err(Refused::Outside),
    }
}

/// What follows `let`, if it stands in front.
#[tactic(auto, unfolding(crate::specs::Expressions::let_read))]
pub fn after_let(tokens: &[Token]) -> Option<&[Token]>
    ensures { GivesAfter result (let_read (kinds_of tokens.now)) }
{
    match tokens {
        [
            Token {
                kind: Kind::Word(Word::Let),
                ..
            },
            after @ ..,
        ] => Some(after),
        _ => None,
    }
}

/// What follows `in`.
#[tactic(auto, unfolding(crate::specs::Expressions::in_read))]
pub fn expect_in(tokens: &[Token]) -> Result<&[Token], Refused>
    ensures { GivesRest result (in_read (kinds_of tokens.now)) }
{
    match tokens {
        [
            Token {
                kind: Kind::Word(Word::In),
                ..
            },
            after @ ..,
        ] => Ok(after),
        _ => Err(Refused::Outside),
    }
}

// What follows `not`, if it stands in front.
#[tactic(auto, unfolding(crate::specs::Expressions::not_read))]
fn after_not(tokens: &[Token]) -> Option<&[Token]>
    ensures { GivesAfter result (not_read (kinds_of tokens.now)) }
{
    match tokens {
        [
            Token {
                kind: Kind::Word(Word::Not),
                ..
            },
            after @ ..,
        ] => Some(after),
        _ => None,
    }
}

/// A name, and what follows it.
#[tactic(auto, unfolding(crate::specs::Expressions::name_read))]
pub fn name(tokens: &[Token]) -> Result<(&Name, &[Token]), Refused>
    ensures { GivesName result (name_read (kinds_of tokens.now)) }
{
    match tokens {
        [
            Token {
                kind: Kind::Name(name),
                ..
            },
            after @ ..,
        ] => Ok((name, after)),
        _ => Err(Refused::Outside),
    }
}

/// The name that `{ ( NAME ) =>` binds, and what follows.
#[tactic(auto, unfolding(crate::specs::Expressions::binder_read))]
pub fn binder(tokens: &[Token]) -> Result<(&Name, &[Token]), Refused>
    ensures { GivesName result (binder_read (kinds_of tokens.now)) }
{
    let rest = expect(tokens, Mark::OpenCurly)?;
    let rest = expect(rest, Mark::OpenRound)?;
    let (name, rest) = name(rest)?;
    let rest = expect(rest, Mark::CloseRound)?;
    let rest = expect(rest, Mark::Arrow)?;
    Ok((name, rest))
}

/// How many `not` stand in front, and what follows them.
#[inline(never)]
pub fn nots(tokens: &[Token]) -> (usize, &[Token])
    ensures many { result.0 ≡ count_nots (kinds_of tokens.now) }
    ensures rest { kinds_of result.1.now ≡ after_nots (kinds_of tokens.now) }
{
    let mut many = 0;
    let mut rest = tokens;
    'nots: while let Some(after) = after_not(rest) {
        many += 1;
        rest = after;
    }
    (many, rest)
}

// The builtin that stands between two operands.
fn builtin_between(kind: &Kind) -> Option<Builtin>
    ensures { result ≡ operator_of_kind (kind_view kind.now) }
{
    match kind {
        Kind::Word(Word::Or) => Some(Builtin::Or),
        Kind::Word(Word::And) => Some(Builtin::And),
        Kind::Mark(Mark::Less) => Some(Builtin::Less),
        Kind::Mark(Mark::Is) => Some(Builtin::Equal),
        Kind::Mark(Mark::Plus) => Some(Builtin::Add),
        Kind::Mark(Mark::Minus) => Some(Builtin::Sub),
        Kind::Mark(Mark::Star) => Some(Builtin::Mul),
        _ => None,
    }
}

/// The operator of this strength that stands in front, if one does, and what follows it.
#[tactic(auto, unfolding(crate::specs::Expressions::operator_read))]
#[inline(never)]
pub fn operator(tokens: &[Token], wanted: u32) -> Option<(Builtin, &[Token])>
    ensures { GivesOperator result (operator_read wanted (kinds_of tokens.now)) }
{
    let [first, after @ ..] = tokens else {
        return None;
    };
    match builtin_between(&first.kind) {
        Some(builtin) if builtin_strength(builtin) == wanted => Some((builtin, after)),
        _ => None,
    }
}

/// The builtin that this word names.
pub fn builtin_of(word: Word) -> Option<Builtin>
    ensures { result ≡ named word }
{
    match word {
        Word::Min => Some(Builtin::Min),
        Word::Max => Some(Builtin::Max),
        Word::Mux => Some(Builtin::Mux),
        Word::Fst => Some(Builtin::Fst),
        Word::Snd => Some(Builtin::Snd),
        Word::MinHoodLoc => Some(Builtin::MinHoodLoc),
        Word::MaxHoodLoc => Some(Builtin::MaxHoodLoc),
        Word::SumHood => Some(Builtin::SumHood),
        Word::AnyHood => Some(Builtin::AnyHood),
        Word::AllHood => Some(Builtin::AllHood),
        Word::Rise => Some(Builtin::Rise),
        _ => None,
    }
}

/// Whether a language, 2 or 1, has this builtin.
pub fn has_builtin(second: bool, builtin: Builtin) -> bool
    ensures { result ≡ has second builtin }
{
    match builtin {
        Builtin::Rise => second,
        _ => true,
    }
}

/// How many arguments a builtin has.
pub fn arity(builtin: Builtin) -> usize
    ensures { result ≡ arity_of builtin }
{
    match builtin {
        Builtin::Not | Builtin::Fst | Builtin::Snd => 1,
        Builtin::SumHood | Builtin::AnyHood | Builtin::AllHood => 1,
        Builtin::Mux | Builtin::Rise => 3,
        _ => 2,
    }
}

/// A copy of a name.
#[inline(never)]
pub fn copy_name(alloc: Global, name: &Name) -> Result<Name, Memory>
    ensures { IfOk result (λ copy. copy.text.items ≡ name.now.text.items) }
{
    Ok(Name {
        text: name.text.to_vec(alloc)?,
    })
}

/// Makes an operand the left one of a builtin, of which this is the right one.
#[inline(never)]
pub fn apply_two(
    alloc: Global,
    builtin: Builtin,
    left: &mut Expr,
    right: Expr,
) -> Result<(), Memory>
    ensures { OnOk result (term_of left.new ≡ ApplyTerm builtin (two (term_of left.old) (term_of right))) }
{
    let mut args = Vec::new(alloc);
    args.push(replace(left, Expr::Uid))?;
    args.push(right)?;
    *left = Expr::Apply(builtin, args);
    Ok(())
}

/// Puts `many` times `not` before an operand.
#[inline(never)]
pub fn negate(alloc: Global, operand: &mut Expr, many: usize) -> Result<(), Memory>
    ensures { OnOk result (term_of operand.new ≡ negated many (term_of operand.old)) }
{
    let mut whole = replace(operand, Expr::Uid);
    for _ in 0..many {
        let mut args = Vec::new(alloc);
        args.push(whole)?;
        whole = Expr::Apply(Builtin::Not, args);
    }
    *operand = whole;
    Ok(())
}

/// Puts an expression into `nbr`.
#[inline(never)]
pub fn make_nbr(alloc: Global, inner: &mut Expr) -> Result<(), Memory>
    ensures { OnOk result (term_of inner.new ≡ NbrTerm (term_of inner.old)) }
{
    *inner = Expr::Nbr(Box::new(alloc, replace(inner, Expr::Uid))?);
    Ok(())
}

/// Makes a body that of `share` or `rep`, from its first value and the name that it binds.
#[inline(never)]
pub fn make_fold(
    alloc: Global,
    shared: bool,
    first: Expr,
    name: &Name,
    body: &mut Expr,
) -> Result<(), Memory>
    ensures { OnOk result (term_of body.new ≡ fold_term shared (term_of first) name.now.text.items
        (term_of body.old)) }
{
    let name = copy_name(alloc, name)?;
    let first = Box::new(alloc, first)?;
    let boxed = Box::new(alloc, replace(body, Expr::Uid))?;
    *body = if shared {
        Expr::Share(first, name, boxed)
    } else {
        Expr::Rep(first, name, boxed)
    };
    Ok(())
}

/// Makes a condition that of `if`, from its branches.
#[inline(never)]
pub fn make_choice(
    alloc: Global,
    condition: &mut Expr,
    then: Expr,
    other: Expr,
) -> Result<(), Memory>
    ensures { OnOk result (term_of condition.new
        ≡ IfTerm (term_of condition.old) (term_of then) (term_of other)) }
{
    let then = Box::new(alloc, then)?;
    let other = Box::new(alloc, other)?;
    let boxed = Box::new(alloc, replace(condition, Expr::Uid))?;
    *condition = Expr::If(boxed, then, other);
    Ok(())
}

/// Writes a truth value over an expression.
#[inline(never)]
pub fn make_truth(value: bool, target: &mut Expr)
    ensures { term_of target.new ≡ TruthTerm value }
{
    *target = Expr::Truth(value);
}

/// Writes `uid` over an expression.
#[inline(never)]
pub fn make_uid(target: &mut Expr)
    ensures { term_of target.new ≡ UidTerm }
{
    *target = Expr::Uid;
}

/// Writes `nbrLink` over an expression.
#[inline(never)]
pub fn make_links(target: &mut Expr)
    ensures { term_of target.new ≡ NbrLinkTerm }
{
    *target = Expr::NbrLink;
}

/// Writes the reading of an input over an expression.
#[inline(never)]
pub fn make_sense(alloc: Global, name: &Name, target: &mut Expr) -> Result<(), Memory>
    ensures { OnOk result (term_of target.new ≡ SenseTerm name.now.text.items) }
{
    *target = Expr::Sense(copy_name(alloc, name)?);
    Ok(())
}

/// Writes a variable over an expression.
#[inline(never)]
pub fn make_variable(alloc: Global, name: &Name, target: &mut Expr) -> Result<(), Memory>
    ensures { OnOk result (term_of target.new ≡ VarTerm name.now.text.items) }
{
    *target = Expr::Var(copy_name(alloc, name)?);
    Ok(())
}

/// Writes a call over an expression.
#[inline(never)]
pub fn make_call(
    alloc: Global,
    name: &Name,
    args: Vec<Expr>,
    target: &mut Expr,
) -> Result<(), Memory>
    ensures { OnOk result (term_of target.new ≡ CallTerm name.now.text.items (terms (map term_of args.items))) }
{
    *target = Expr::Call(copy_name(alloc, name)?, args);
    Ok(())
}

/// Adds an expression to others.
#[inline(never)]
pub fn add(args: &mut Vec<Expr>, arg: Expr) -> Result<(), Memory>
    ensures { OnOk result (args.new.items ≡ args.old.items ++ (arg ∷ [])) }
{
    args.push(arg)?;
    Ok(())
}

/// Adds a binding of a name to others.
#[inline(never)]
pub fn add_binding(bindings: &mut Vec<(Name, Expr)>, name: Name, bound: Expr) -> Result<(), Memory>
    ensures { OnOk result (bindings.new.items ≡ bindings.old.items ++ ((name, bound) ∷ [])) }
{
    bindings.push((name, bound))?;
    Ok(())
}
