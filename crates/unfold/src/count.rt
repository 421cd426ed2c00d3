//! Counting the nodes of an unfolding without making it.

ghost use Rattle.std.specs.Prelude.{ℕ, ◌≡◌, ◌+◌, ◌<◌, ◌≤◌, length, map, min, suc};
ghost use Rattle.fc_syntax.specs.Terms.{term_of, terms};
ghost use Rattle.fc_types.specs.Views.{known_of};
ghost use Rattle.unfold.specs.Counting.{count as count_of, count_all as all_counted, count_arguments as arguments_counted, size_of};
ghost use Rattle.unfold.specs.Views.{AreCapped, counted};

use crate::names::find;
use fc_syntax::Expr;
use fc_types::Known;
use fc_values::Name;

/// Counts of nodes are cut at this number.
pub const MOST_COUNTED: u32 = 1_000_000;

// A sum, cut at the greatest count.
fn add(a: u32, b: u32) -> u32
    requires first { a ≤ MOST_COUNTED }
    requires second { b ≤ MOST_COUNTED }
    ensures { result ≡ min MOST_COUNTED (a + b) }
{
    MOST_COUNTED.min(a + b)
}

/// The number of nodes of an expression, cut at the greatest count, from the counts of the functions before it.
#[cycle(count)]
pub fn count(known: &Known<'_>, counts: &[u32], expr: &Expr) -> u32
    requires visible { length counts.now ≤ length (known_of known.now).functions }
    requires capped { AreCapped (known_of known.now) counts.now }
    ensures { result ≡ min MOST_COUNTED (count_of (counted (known_of known.now) (length counts.now))
        (term_of expr.now)) }
{
    match expr {
        Expr::Int(_) | Expr::Truth(_) | Expr::Var(_) => 1,
        Expr::Uid | Expr::NbrLink | Expr::Sense(_) => 1,
        Expr::Apply(_, args) => add(1, count_all(known, counts, args)),
        Expr::Nbr(body) => add(1, count(known, counts, body)),
        Expr::Rep(first, _, body) => count_two(known, counts, first, body),
        Expr::Share(first, _, body) => count_two(known, counts, first, body),
        Expr::If(condition, then, other) => {
            add(
                count_two(known, counts, condition, then),
                count(known, counts, other),
            )
        }
        Expr::Let(_, bound, body) => count_two(known, counts, bound, body),
        Expr::Call(name, args) => {
            add(
                count_arguments(known, counts, args),
                count_named(known, counts, name),
            )
        }
    }
}

// A node over two expressions.
#[cycle(count)]
fn count_two(known: &Known<'_>, counts: &[u32], first: &Expr, second: &Expr) -> u32
    requires visible { length counts.now ≤ length (known_of known.now).functions }
    requires capped { AreCapped (known_of known.now) counts.now }
    ensures { result
        ≡ min MOST_COUNTED (suc (count_of (counted (known_of known.now) (length counts.now)) (term_of first.now)
        + count_of (counted (known_of known.now) (length counts.now)) (term_of second.now))) }
{
    add(
        add(1, count(known, counts, first)),
        count(known, counts, second),
    )
}

// The nodes of expressions in a row.
#[cycle(count)]
fn count_all(known: &Known<'_>, counts: &[u32], args: &[Expr]) -> u32
    requires visible { length counts.now ≤ length (known_of known.now).functions }
    requires capped { AreCapped (known_of known.now) counts.now }
    ensures { result
        ≡ min MOST_COUNTED (all_counted (counted (known_of known.now) (length counts.now))
        (terms (map term_of args.now))) }
{
    match args {
        [] => 0,
        [arg, rest @ ..] => add(count(known, counts, arg), count_all(known, counts, rest)),
    }
}

// The nodes of the arguments of a call, each with its `let`.
#[cycle(count)]
fn count_arguments(known: &Known<'_>, counts: &[u32], args: &[Expr]) -> u32
    requires visible { length counts.now ≤ length (known_of known.now).functions }
    requires capped { AreCapped (known_of known.now) counts.now }
    ensures { result
        ≡ min MOST_COUNTED (arguments_counted (counted (known_of known.now) (length counts.now))
        (terms (map term_of args.now))) }
{
    match args {
        [] => 0,
        [arg, rest @ ..] => add(
            add(1, count(known, counts, arg)),
            count_arguments(known, counts, rest),
        ),
    }
}

// The nodes of a function's body.
fn count_named(known: &Known<'_>, counts: &[u32], name: &Name) -> u32
    requires visible { length counts.now ≤ length (known_of known.now).functions }
    requires capped { AreCapped (known_of known.now) counts.now }
    ensures { result ≡ min MOST_COUNTED (size_of name.now.text.items
        (counted (known_of known.now) (length counts.now))) }
{
    match find(known, counts.len(), name) {
        Some((number, _)) => counts[number],
        None => 1,
    }
}
