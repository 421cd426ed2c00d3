//! The stack of pieces that are left to print, so that chains of operators and of `let` need no recursion.

ghost use Rattle.std.specs.Prelude.{◌≡◌, ◌+◌, ◌≤◌, ◌<◌, ◌∷◌, ◌++◌, IfOk, map};
ghost use Rattle.fc_syntax.specs.Terms.{IfTerm, LetTerm, term_of, terms};
ghost use Rattle.fc_syntax.specs.Text.{apply_text, behind_commas, call_text, operand_text, all_written, text, written};
ghost use Rattle.fc_syntax.specs.Pieces.{evolution_text, pieces_text, pieces_weight, stack_text, weight, weights};

use crate::tree::Expr;
use crate::words::{builtin_strength, builtin_word, strength};
use fc_values::{Builtin, Memory, Name};

/// A piece of a text: bytes, a number, an expression, an operand with the strength that its place asks, or arguments
/// that follow others.
#[derive(Clone, Copy)]
pub enum Piece<'a> {
    Text(&'a [u8]),
    Number(u32),
    Whole(&'a Expr),
    Operand(&'a Expr, u32),
    Rest(&'a [Expr]),
}

/// Puts pieces on the stack, the first of them on top.
pub fn push<'a>(stack: &mut Vec<Piece<'a>>, pieces: &[Piece<'a>]) -> Result<(), Memory>
    ensures text { IfOk result (λ _. stack_text stack.new.items ≡ pieces_text pieces.now
        ++ stack_text stack.old.items) }
    ensures weight { IfOk result (λ _. pieces_weight stack.new.items
        ≡ pieces_weight pieces.now + pieces_weight stack.old.items) }
{
    for at in (0..pieces.len()).rev() {
        stack.push(pieces[at])?;
    }
    Ok(())
}

/// Puts the pieces of an expression on the stack.
pub fn push_expression<'a>(stack: &mut Vec<Piece<'a>>, expr: &'a Expr) -> Result<(), Memory>
    ensures text { IfOk result (λ _. stack_text stack.new.items ≡ text (term_of expr.now)
        ++ stack_text stack.old.items) }
    ensures weight { IfOk result (λ _. pieces_weight stack.new.items
        < weight (term_of expr.now) + pieces_weight stack.old.items) }
{
    match expr {
        Expr::Int(n) => push(stack, &[Piece::Number(*n)]),
        Expr::Truth(true) => push(stack, &[Piece::Text(b"true")]),
        Expr::Truth(false) => push(stack, &[Piece::Text(b"false")]),
        Expr::Var(name) => push(stack, &[Piece::Text(&name.text)]),
        Expr::Uid => push(stack, &[Piece::Text(b"uid")]),
        Expr::NbrLink => push(stack, &[Piece::Text(b"nbrLink")]),
        Expr::Sense(name) => push(stack, &[Piece::Text(b"sense "), Piece::Text(&name.text)]),
        Expr::Apply(builtin, args) => push_apply(stack, *builtin, args),
        Expr::Nbr(inner) => push(
            stack,
            &[Piece::Text(b"nbr{"), Piece::Whole(inner), Piece::Text(b"}")],
        ),
        Expr::Rep(first, name, body) => push_evolution(stack, b"rep(", first, name, body),
        Expr::Share(first, name, body) => push_evolution(stack, b"share(", first, name, body),
        Expr::If(condition, then, other) => push_branching(stack, condition, then, other),
        Expr::Let(name, bound, body) => push_binding(stack, name, bound, body),
        Expr::Call(name, args) => push_call(stack, &name.text, args),
    }
}

// Puts the pieces of a value that evolves on the stack, by the word and bracket that it begins with.
fn push_evolution<'a>(
    stack: &mut Vec<Piece<'a>>,
    word: &'a [u8],
    first: &'a Expr,
    name: &'a Name,
    body: &'a Expr,
) -> Result<(), Memory>
    ensures text { IfOk result (λ _. stack_text stack.new.items
        ≡ evolution_text word.now (term_of first.now) name.now.text.items (term_of body.now)
        ++ stack_text stack.old.items) }
    ensures weight { IfOk result (λ _. pieces_weight stack.new.items
        < 6 + weight (term_of first.now) + weight (term_of body.now) + pieces_weight stack.old.items) }
{
    push(
        stack,
        &[
            Piece::Text(word),
            Piece::Whole(first),
            Piece::Text(b"){("),
            Piece::Text(&name.text),
            Piece::Text(b") => "),
            Piece::Whole(body),
            Piece::Text(b"}"),
        ],
    )
}

// Puts the pieces of a branching on the stack.
fn push_branching<'a>(
    stack: &mut Vec<Piece<'a>>,
    condition: &'a Expr,
    then: &'a Expr,
    other: &'a Expr,
) -> Result<(), Memory>
    ensures text { IfOk result (λ _. stack_text stack.new.items
        ≡ text (IfTerm (term_of condition.now) (term_of then.now) (term_of other.now)) ++ stack_text stack.old.items) }
    ensures weight { IfOk result (λ _. pieces_weight stack.new.items
        < weight (IfTerm (term_of condition.now) (term_of then.now) (term_of other.now))
        + pieces_weight stack.old.items) }
{
    push(
        stack,
        &[
            Piece::Text(b"if ("),
            Piece::Whole(condition),
            Piece::Text(b") {"),
            Piece::Whole(then),
            Piece::Text(b"} {"),
            Piece::Whole(other),
            Piece::Text(b"}"),
        ],
    )
}

// Puts the pieces of a bound value and its body on the stack.
fn push_binding<'a>(
    stack: &mut Vec<Piece<'a>>,
    name: &'a Name,
    bound: &'a Expr,
    body: &'a Expr,
) -> Result<(), Memory>
    ensures text { IfOk result (λ _. stack_text stack.new.items
        ≡ text (LetTerm name.now.text.items (term_of bound.now) (term_of body.now)) ++ stack_text stack.old.items) }
    ensures weight { IfOk result (λ _. pieces_weight stack.new.items
        < weight (LetTerm name.now.text.items (term_of bound.now) (term_of body.now)) + pieces_weight stack.old.items) }
{
    push(
        stack,
        &[
            Piece::Text(b"let "),
            Piece::Text(&name.text),
            Piece::Text(b" = "),
            Piece::Whole(bound),
            Piece::Text(b" in "),
            Piece::Whole(body),
        ],
    )
}

/// Puts the pieces of an operand on the stack, in brackets where its place asks more than its strength.
pub fn push_operand<'a>(stack: &mut Vec<Piece<'a>>, expr: &'a Expr, asks: u32) -> Result<(), Memory>
    ensures text { IfOk result (λ _. stack_text stack.new.items ≡ operand_text asks (written (term_of expr.now))
        ++ stack_text stack.old.items) }
    ensures weight { IfOk result (λ _. pieces_weight stack.new.items
        < 3 + weight (term_of expr.now) + pieces_weight stack.old.items) }
{
    if strength(expr) < asks {
        push(
            stack,
            &[Piece::Text(b"("), Piece::Whole(expr), Piece::Text(b")")],
        )
    } else {
        push(stack, &[Piece::Whole(expr)])
    }
}

/// Puts the pieces of arguments that follow others on the stack.
pub fn push_rest<'a>(stack: &mut Vec<Piece<'a>>, args: &'a [Expr]) -> Result<(), Memory>
    ensures text { IfOk result (λ _. stack_text stack.new.items
        ≡ behind_commas (map (λ w. w.text) (all_written (terms (map term_of args.now))))
        ++ stack_text stack.old.items) }
    ensures weight { IfOk result (λ _. pieces_weight stack.new.items
        < 1 + weights (terms (map term_of args.now)) + pieces_weight stack.old.items) }
{
    match args {
        [] => Ok(()),
        [first, rest @ ..] => push(
            stack,
            &[Piece::Text(b", "), Piece::Whole(first), Piece::Rest(rest)],
        ),
    }
}

fn push_apply<'a>(
    stack: &mut Vec<Piece<'a>>,
    builtin: Builtin,
    args: &'a [Expr],
) -> Result<(), Memory>
    ensures text { IfOk result (λ _. stack_text stack.new.items
        ≡ apply_text builtin (all_written (terms (map term_of args.now))) ++ stack_text stack.old.items) }
    ensures weight { IfOk result (λ _. pieces_weight stack.new.items
        < 10 + weights (terms (map term_of args.now)) + pieces_weight stack.old.items) }
{
    let own = builtin_strength(builtin);
    let word = builtin_word(builtin);
    match args {
        [only] if own == 6 => push(
            stack,
            &[
                Piece::Text(word),
                Piece::Text(b" "),
                Piece::Operand(only, 6),
            ],
        ),
        [left, right] if own < 6 => push(
            stack,
            &[
                Piece::Operand(left, if own == 3 { 4 } else { own }),
                Piece::Text(b" "),
                Piece::Text(word),
                Piece::Text(b" "),
                Piece::Operand(right, own + 1),
            ],
        ),
        _ => push_call(stack, word, args),
    }
}

fn push_call<'a>(stack: &mut Vec<Piece<'a>>, word: &'a [u8], args: &'a [Expr]) -> Result<(), Memory>
    ensures text { IfOk result (λ _. stack_text stack.new.items
        ≡ call_text word.now (all_written (terms (map term_of args.now))) ++ stack_text stack.old.items) }
    ensures weight { IfOk result (λ _. pieces_weight stack.new.items
        < 10 + weights (terms (map term_of args.now)) + pieces_weight stack.old.items) }
{
    match args {
        [] => push(stack, &[Piece::Text(word), Piece::Text(b"()")]),
        [first, rest @ ..] => push(
            stack,
            &[
                Piece::Text(word),
                Piece::Text(b"("),
                Piece::Whole(first),
                Piece::Rest(rest),
                Piece::Text(b")"),
            ],
        ),
    }
}
