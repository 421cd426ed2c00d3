//! Operators on local values.

ghost use Rattle.std.specs.Prelude.{◌≡◌, ◌+◌, ◌*◌, ◌-◌, ◌∷◌, [], IfOk, IsSome, Some, min};
ghost use Rattle.fc_values.specs.Builtins.{local_value, of_choice, of_pair};
ghost use Rattle.fc_values.specs.Values.{local_of, lesser as lesser_of, greater as greater_of, is_equal as equal_of, is_less as less_of, compare_values, IntValue, BoolValue, PairValue};
ghost use Rattle.fc_values.specs.Rows.{locals_of, head_of, tail_of, AreTwo, AreTwoIntegers, AreThreeIntegers, IsTruth, AreTwoTruths, IsPair, IsChoice, IsInteger, IsTruthValue, IsPairValue};

use crate::Memory;
use crate::builtins::Builtin;
use crate::values::{Local, compare, copy};
use std::alloc::Global;
use std::cmp::Ordering;

/// The value of an operator on local values.
#[tactic(auto, using(crate::proofs::Inversions::rows_fit))]
pub fn apply_local(
    alloc: Global,
    builtin: Builtin,
    args: &[&Local],
    ceiling: u32,
) -> Result<Local, Memory>
    requires { IsSome (local_value builtin ceiling (locals_of args.now)) }
    ensures { IfOk result (λ v. local_value builtin ceiling (locals_of args.now) ≡ Some (local_of v)) }
{
    match builtin {
        Builtin::Add => {
            let (a, b) = two_integers(args);
            Ok(Local::Int(add_cut(a, b, ceiling)))
        }
        Builtin::Sub => {
            let (a, b) = two_integers(args);
            Ok(Local::Int(a.saturating_sub(b)))
        }
        Builtin::Mul => {
            let (a, b) = two_integers(args);
            Ok(Local::Int(multiply_cut(a, b, ceiling)))
        }
        Builtin::Rise => {
            let (a, b, step) = three_integers(args);
            Ok(Local::Int(add_cut(b, step, a)))
        }
        Builtin::And => {
            let (a, b) = two_truths(args);
            Ok(Local::Bool(a && b))
        }
        Builtin::Or => {
            let (a, b) = two_truths(args);
            Ok(Local::Bool(a || b))
        }
        Builtin::Not => Ok(Local::Bool(!one_truth(args))),
        Builtin::Min => copy(alloc, lesser(first(args), second(args))),
        Builtin::Max => copy(alloc, greater(first(args), second(args))),
        Builtin::Less => Ok(Local::Bool(is_less(first(args), second(args)))),
        Builtin::Equal => Ok(Local::Bool(is_equal(first(args), second(args)))),
        Builtin::Mux => copy(alloc, chosen(args)),
        Builtin::Pair => pair(alloc, first(args), second(args)),
        Builtin::Fst => copy(alloc, first_component(args)),
        Builtin::Snd => copy(alloc, second_component(args)),
        _ => unreachable!(),
    }
}

fn two_integers(args: &[&Local]) -> (u32, u32)
    requires { AreTwoIntegers (locals_of args.now) }
    ensures { locals_of args.now ≡ IntValue result.0 ∷ IntValue result.1 ∷ [] }
{
    match args {
        [a, b] => (integer(a), integer(b)),
        _ => unreachable!(),
    }
}

fn three_integers(args: &[&Local]) -> (u32, u32, u32)
    requires { AreThreeIntegers (locals_of args.now) }
    ensures { locals_of args.now ≡ IntValue result.0 ∷ IntValue result.1 ∷ IntValue result.2 ∷ [] }
{
    match args {
        [a, b, c] => (integer(a), integer(b), integer(c)),
        _ => unreachable!(),
    }
}

fn one_truth(args: &[&Local]) -> bool
    requires { IsTruth (locals_of args.now) }
    ensures { locals_of args.now ≡ BoolValue result ∷ [] }
{
    match args {
        [a] => truth(a),
        _ => unreachable!(),
    }
}

fn two_truths(args: &[&Local]) -> (bool, bool)
    requires { AreTwoTruths (locals_of args.now) }
    ensures { locals_of args.now ≡ BoolValue result.0 ∷ BoolValue result.1 ∷ [] }
{
    match args {
        [a, b] => (truth(a), truth(b)),
        _ => unreachable!(),
    }
}

/// The integer that a value is.
pub fn integer(value: &Local) -> u32
    requires { IsInteger (local_of value.now) }
    ensures { local_of value.now ≡ IntValue result }
{
    match value {
        Local::Int(n) => *n,
        _ => unreachable!(),
    }
}

/// The truth value that a value is.
pub fn truth(value: &Local) -> bool
    requires { IsTruthValue (local_of value.now) }
    ensures { local_of value.now ≡ BoolValue result }
{
    match value {
        Local::Bool(b) => *b,
        _ => unreachable!(),
    }
}

/// The lesser of the ceiling and a sum.
pub fn add_cut(a: u32, b: u32, ceiling: u32) -> u32
    ensures { result ≡ min ceiling (a + b) }
{
    if a > ceiling || b > ceiling - a {
        ceiling
    } else {
        a + b
    }
}

/// The lesser of the ceiling and a product.
pub fn multiply_cut(a: u32, b: u32, ceiling: u32) -> u32
    ensures { result ≡ min ceiling (a * b) }
{
    let product = u64::from(a) * u64::from(b);
    if product > u64::from(ceiling) {
        ceiling
    } else {
        product as u32
    }
}

/// Whether the first comes before the second.
pub fn is_less(a: &Local, b: &Local) -> bool
    ensures { result ≡ less_of (compare_values (local_of a.now) (local_of b.now)) }
{
    match compare(a, b) {
        Ordering::Less => true,
        _ => false,
    }
}

/// Whether two values are the same.
fn is_equal(a: &Local, b: &Local) -> bool
    ensures { result ≡ equal_of (compare_values (local_of a.now) (local_of b.now)) }
{
    match compare(a, b) {
        Ordering::Equal => true,
        _ => false,
    }
}

/// The lesser of two values.
pub fn lesser<'a>(a: &'a Local, b: &'a Local) -> &'a Local
    ensures { local_of result.now ≡ lesser_of (local_of a.now) (local_of b.now) }
{
    if is_less(b, a) { b } else { a }
}

/// The greater of two values.
pub fn greater<'a>(a: &'a Local, b: &'a Local) -> &'a Local
    ensures { local_of result.now ≡ greater_of (local_of a.now) (local_of b.now) }
{
    if is_less(a, b) { b } else { a }
}

fn first<'a>(args: &[&'a Local]) -> &'a Local
    requires { AreTwo (locals_of args.now) }
    ensures { local_of result.now ≡ head_of (locals_of args.now) }
{
    match args {
        [a, _] => a,
        _ => unreachable!(),
    }
}

fn second<'a>(args: &[&'a Local]) -> &'a Local
    requires { AreTwo (locals_of args.now) }
    ensures { local_of result.now ≡ head_of (tail_of (locals_of args.now)) }
{
    match args {
        [_, b] => b,
        _ => unreachable!(),
    }
}

fn chosen<'a>(args: &[&'a Local]) -> &'a Local
    requires { IsChoice (locals_of args.now) }
    ensures { of_choice (locals_of args.now) ≡ Some (local_of result.now) }
{
    match args {
        [choice, a, b] => if truth(choice) { a } else { b },
        _ => unreachable!(),
    }
}

fn pair(alloc: Global, a: &Local, b: &Local) -> Result<Local, Memory>
    ensures { IfOk result (λ v. local_of v ≡ PairValue (local_of a.now) (local_of b.now)) }
{
    let first = Box::new(alloc, copy(alloc, a)?)?;
    let second = Box::new(alloc, copy(alloc, b)?)?;
    Ok(Local::Pair(first, second))
}

fn first_component<'a>(args: &[&'a Local]) -> &'a Local
    requires { IsPair (locals_of args.now) }
    ensures { of_pair (λ a b. a) (locals_of args.now) ≡ Some (local_of result.now) }
{
    match args {
        [both] => components(both).0,
        _ => unreachable!(),
    }
}

fn second_component<'a>(args: &[&'a Local]) -> &'a Local
    requires { IsPair (locals_of args.now) }
    ensures { of_pair (λ a b. b) (locals_of args.now) ≡ Some (local_of result.now) }
{
    match args {
        [both] => components(both).1,
        _ => unreachable!(),
    }
}

fn components(value: &Local) -> (&Local, &Local)
    requires { IsPairValue (local_of value.now) }
    ensures { local_of value.now ≡ PairValue (local_of result.0.now) (local_of result.1.now) }
{
    match value {
        Local::Pair(a, b) => (a, b),
        _ => unreachable!(),
    }
}
