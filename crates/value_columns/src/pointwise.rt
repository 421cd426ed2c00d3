//! Operators on the values that are the last on the stack, row by row.

ghost use Rattle.std.specs.Prelude.{◌≡◌, ◌≢◌, ℕ, ◌+◌, ◌*◌, ◌<◌, length, Some};
ghost use Rattle.fc_values.specs.Builtins.{local_value};
ghost use Rattle.fc_values.specs.BuiltinTypes.{Takes};
ghost use Rattle.fc_values.specs.Types.{leaves, local_type_of};
ghost use Rattle.fc_values.specs.Values.{is_equal as equal_of};
ghost use Rattle.value_columns.specs.Arguments.{Makes, arguments_in, leaves_of, types_in};
ghost use Rattle.value_columns.specs.Columns.{row_in, word_in};

use crate::choices::{is_less, keep_rows, select_rows, test_rows};
use crate::gaps::close_gap;
use crate::leaves::{combine, negate, rise, word_of};
use crate::widths::width;
use fc_values::{Builtin, LocalTy, add_cut, multiply_cut};
use std::cmp::Ordering;

/// Puts the values of an operator in place of its arguments, in so many rows. The arguments, of these types, are the
/// last on the stack, one after another from `at` on; `ty` is the type of the values. It takes no memory.
#[tactic(auto, using(crate::proofs::Operators::value_fits, crate::proofs::Operators::value_leaves))]
pub fn apply_operator(
    words: &mut Vec<u32>,
    builtin: Builtin,
    types: &[&LocalTy],
    ty: &LocalTy,
    at: usize,
    rows: usize,
    ceiling: u32,
)
    requires types { Takes builtin (types_in types.now) (local_type_of ty.now) }
    requires some { 0 < rows }
    requires length { length words.old.items ≡ at + rows * leaves_of (types_in types.now) }
    ensures values { (i : ℕ) → i < rows
        → local_value builtin ceiling (arguments_in words.old.items (types_in types.now) rows at i)
        ≡ Some (row_in words.new.items (local_type_of ty.now) rows at i) }
    ensures before { (p : ℕ) → p < at → word_in words.new.items p ≡ word_in words.old.items p }
    ensures length { length words.new.items ≡ at + rows * leaves (local_type_of ty.now) }
{
    let many = rows * width(ty);
    match builtin {
        Builtin::Snd => {
            let passed = words.len() - at - many;
            close_gap(words, at, passed);
        }
        _ => {
            operate(words, builtin, types, ty, at, rows, ceiling);
            words.truncate(at + many);
        }
    }
}

// The same for any other operator than `Snd`, but for what the arguments leave behind the values.
fn operate(
    words: &mut [u32],
    builtin: Builtin,
    types: &[&LocalTy],
    ty: &LocalTy,
    at: usize,
    rows: usize,
    ceiling: u32,
)
    requires types { Takes builtin (types_in types.now) (local_type_of ty.now) }
    requires other { builtin ≢ Builtin.Snd }
    requires some { 0 < rows }
    requires length { length words.old ≡ at + rows * leaves_of (types_in types.now) }
    ensures { Makes (local_value builtin ceiling) (types_in types.now) (local_type_of ty.now) rows at
        words.old words.new }
{
    match builtin {
        Builtin::Add => combine(words, at, rows, |a, b| add_cut(a, b, ceiling)),
        Builtin::Sub => combine(words, at, rows, |a, b| a.saturating_sub(b)),
        Builtin::Mul => combine(words, at, rows, |a, b| multiply_cut(a, b, ceiling)),
        Builtin::And => combine(words, at, rows, |a, b| word_of(a != 0 && b != 0)),
        Builtin::Or => combine(words, at, rows, |a, b| word_of(a != 0 || b != 0)),
        Builtin::Not => negate(words, at, rows),
        Builtin::Rise => rise(words, at, rows),
        Builtin::Less => test_rows(words, types[0], at, rows, |order| is_less(order)),
        Builtin::Equal => test_rows(words, types[0], at, rows, |order| is_equal(order)),
        Builtin::Min => keep_rows(words, ty, at, rows, false),
        Builtin::Max => keep_rows(words, ty, at, rows, true),
        Builtin::Mux => select_rows(words, ty, at, rows),
        Builtin::Pair | Builtin::Fst => {}
        _ => unreachable!(),
    }
}

fn is_equal(order: Ordering) -> bool
    ensures { result ≡ equal_of order }
{
    order == Ordering::Equal
}
