//! Functions and inputs by their names.

ghost use Rattle.std.specs.Prelude.{◌≡◌, ◌<◌, ◌≤◌, ◌^◌, IfSome, length};
ghost use Rattle.fc_types.specs.Views.{known_of};
ghost use Rattle.unfold.specs.Unfolding.{input_number, sense_by};
ghost use Rattle.unfold.specs.Views.{IsFound};
ghost use Rattle.unfold.specs.Writing.{IsBareCall, IsLastBody, SameCall, input_term};

use fc_syntax::Expr;
use fc_types::{Function, Known};
use fc_values::{InputTy, Name};

/// The function of a name among the first `visible` ones, with its number.
pub fn find<'k>(known: &Known<'k>, visible: usize, name: &Name) -> Option<(usize, Function<'k>)>
    ensures function { IsFound (known_of known.now) visible name.now.text.items result }
    ensures earlier { IfSome result (λ r. r.0 < visible) }
{
    match known.functions.get_full(&name.text.as_slice()) {
        Some((number, _, function)) => {
            if number < visible {
                Some((number, *function))
            } else {
                None
            }
        }
        None => None,
    }
}

// The call without arguments that a function's body is, if it is one, and how many functions it sees.
fn bare_call<'k>(known: &Known<'k>, visible: usize, name: &Name) -> Option<(usize, &'k Name)>
    ensures { IsBareCall (known_of known.now) visible name.now.text.items result }
{
    let (number, function) = find(known, visible, name)?;
    match function.body {
        Expr::Call(next, args) if args.is_empty() => Some((number, next)),
        _ => None,
    }
}

// The last of a chain of calls without arguments, each of which is the body of the function called before. Chains may
// be longer than the stack is deep, so a loop follows them.
fn last_call<'a>(known: &'a Known<'_>, visible: usize, name: &'a Name) -> (usize, &'a Name)
    ensures same { SameCall (known_of known.now) visible name.now.text.items result.0 result.1.now.text.items }
    ensures fewer { result.0 ≤ visible }
{
    let mut seen = visible;
    let mut last = name;
    while let Some((number, next)) = bare_call(known, seen, last) {
        seen = number;
        last = &*next;
    }
    (seen, last)
}

/// The body of the function that a call without arguments comes to, through others that are such calls, and how many
/// functions it sees.
#[inline(never)]
pub fn last_body<'a>(
    known: &'a Known<'_>,
    visible: usize,
    name: &'a Name,
) -> Option<(usize, &'a Expr)>
    ensures body { IsLastBody (known_of known.now) visible name.now.text.items result }
    ensures earlier { IfSome result (λ r. r.0 < visible) }
{
    let (seen, last) = last_call(known, visible, name);
    let (number, function) = find(known, seen, last)?;
    Some((number, function.body))
}

/// The number of an input, in declared order, and its type.
pub fn find_input(known: &Known<'_>, name: &Name) -> Option<(u32, InputTy)>
    requires { length (known_of known.now).inputs < 2 ^ 32 }
    ensures { sense_by (known_of known.now).inputs (input_number name.now.text.items (known_of known.now).inputs)
        ≡ input_term result }
{
    match known.inputs.get_full(&name.text.as_slice()) {
        Some((number, _, ty)) => Some((number as u32, *ty)),
        None => None,
    }
}
