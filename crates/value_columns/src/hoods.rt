//! The hoods: folds of a field over the rows other than the firing device's, in place of the field.

ghost use Rattle.std.specs.Prelude.{◌≡◌, ℕ, ◌+◌, ◌-◌, ◌*◌, ◌<◌, ◌≤◌, ◌&&◌, ◌||◌, Some, length, min, option_map, sum};
ghost use Rattle.std.specs.List.{list_all, list_any};
ghost use Rattle.fc_values.specs.Builtins.{all_of, any_of, greatest_of, least_of, sum_of};
ghost use Rattle.fc_values.specs.Types.{BoolType, IntType, leaves, local_type_of};
ghost use Rattle.fc_values.specs.Values.{BoolValue, IntValue};
ghost use Rattle.fc_values.specs.Values.{greater as greater_of, is_less as less_of, lesser as lesser_of};
ghost use Rattle.value_columns.specs.Columns.{local_in, truth_of, word_in};
ghost use Rattle.value_columns.specs.LoneRows.{Stands, value_in};
ghost use Rattle.value_columns.specs.OtherRows.{other_rows, rows_in};

use crate::leaves::word_of;
use crate::order::{Row, compare_rows};
use crate::widths::width;
use fc_values::{LocalTy, add_cut};
use std::cmp::Ordering;

/// The sum of integers, cut at the ceiling.
pub fn sum_hood(words: &mut Vec<u32>, rows: usize, at: usize, own: usize, ceiling: u32)
    requires own { own < rows }
    requires within { at + rows ≤ length words.old.items }
    ensures before { (p : ℕ) → p < at → word_in words.new.items p ≡ word_in words.old.items p }
    ensures long { length words.new.items ≡ at + 1 }
    ensures sum { option_map (λ n. IntValue (min ceiling n)) (sum_of (other_rows words.old.items IntType rows at own))
        ≡ Some (local_in words.new.items IntType at) }
{
    let first = sum_cut(&words[at..at + own], 0, ceiling);
    let total = sum_cut(&words[at + (own + 1)..at + rows], first, ceiling);
    end_with(words, at, total);
}

// A number and the sum of others, cut at the ceiling.
fn sum_cut(numbers: &[u32], start: u32, ceiling: u32) -> u32
    requires { start ≤ ceiling }
    ensures { result ≡ min ceiling (start + sum numbers.now) }
{
    let mut total = start;
    for number in numbers {
        total = add_cut(total, *number, ceiling);
    }
    total
}

/// Whether any of some truth values is true.
pub fn any_hood(words: &mut Vec<u32>, rows: usize, at: usize, own: usize)
    requires own { own < rows }
    requires within { at + rows ≤ length words.old.items }
    ensures before { (p : ℕ) → p < at → word_in words.new.items p ≡ word_in words.old.items p }
    ensures long { length words.new.items ≡ at + 1 }
    ensures any { option_map BoolValue (any_of (other_rows words.old.items BoolType rows at own))
        ≡ Some (local_in words.new.items BoolType at) }
{
    let first = any_true(&words[at..at + own], false);
    let any = any_true(&words[at + (own + 1)..at + rows], first);
    end_with(words, at, word_of(any));
}

// Whether a truth value or any of some others is true.
#[tactic(auto, using(crate::proofs::OtherReads::truths_end))]
fn any_true(truths: &[u32], start: bool) -> bool
    ensures { result ≡ (start || list_any truth_of truths.now) }
{
    for truth in truths {
        if *truth != 0 {
            return true;
        }
    }
    start
}

/// Whether each of some truth values is true.
pub fn all_hood(words: &mut Vec<u32>, rows: usize, at: usize, own: usize)
    requires own { own < rows }
    requires within { at + rows ≤ length words.old.items }
    ensures before { (p : ℕ) → p < at → word_in words.new.items p ≡ word_in words.old.items p }
    ensures long { length words.new.items ≡ at + 1 }
    ensures all { option_map BoolValue (all_of (other_rows words.old.items BoolType rows at own))
        ≡ Some (local_in words.new.items BoolType at) }
{
    let first = all_true(&words[at..at + own], true);
    let all = all_true(&words[at + (own + 1)..at + rows], first);
    end_with(words, at, word_of(all));
}

// Whether a truth value and each of some others is true.
#[tactic(auto, using(crate::proofs::OtherReads::truths_end))]
fn all_true(truths: &[u32], start: bool) -> bool
    ensures { result ≡ (start && list_all truth_of truths.now) }
{
    for truth in truths {
        if *truth == 0 {
            return false;
        }
    }
    start
}

// Puts a word at a place, as the last one.
fn end_with(words: &mut Vec<u32>, at: usize, word: u32)
    requires { at < length words.old.items }
    ensures before { (p : ℕ) → p < at → word_in words.new.items p ≡ word_in words.old.items p }
    ensures long { length words.new.items ≡ at + 1 }
    ensures last { word_in words.new.items at ≡ word }
{
    words[at] = word;
    words.truncate(at + 1);
}

/// The least of a field's values and of a local one, which stands behind the field.
#[tactic(auto, using(crate::proofs::Standing::leaves_fit))]
pub fn least_hood(words: &mut Vec<u32>, ty: &LocalTy, rows: usize, at: usize, own: usize)
    requires own { own < rows }
    requires within { let width = leaves (local_type_of ty.now) in
        at + rows * width + width ≤ length words.old.items }
    ensures before { (p : ℕ) → p < at → word_in words.new.items p ≡ word_in words.old.items p }
    ensures long { length words.new.items ≡ at + leaves (local_type_of ty.now) }
    ensures least { let t = local_type_of ty.now in local_in words.new.items t at
        ≡ least_of (local_in words.old.items t (at + rows * leaves t)) (other_rows words.old.items t rows at own) }
{
    let many = width(ty);
    let field = Row {
        first: at,
        step: rows,
    };
    let local = Row {
        first: at + rows * many,
        step: 1,
    };
    let first = least(words, ty, field, 0, own, local);
    let best = least(words, ty, field, own + 1, rows, first);
    end_with_row(words, best, at, many);
}

// The least of a row and some rows of a field, of which the first is given.
fn least(words: &[u32], ty: &LocalTy, field: Row, from: usize, to: usize, start: Row) -> Row
    requires width { leaves (local_type_of ty.now) ≤ usize.MAX }
    requires within { field.first + field.step * leaves (local_type_of ty.now) ≤ length words.now }
    requires rows { from ≤ to × to ≤ field.step }
    requires start { Stands words.now (local_type_of ty.now) start }
    requires behind { field.first ≤ start.first × 0 < start.step }
    ensures stands { Stands words.now (local_type_of ty.now) result }
    ensures behind { field.first ≤ result.first × 0 < result.step }
    ensures least { let t = local_type_of ty.now in value_in words.now t result
        ≡ least_of (value_in words.now t start) (rows_in words.now t field.step field.first from (to - from)) }
{
    let mut best = start;
    for row in from..to {
        let other = Row {
            first: field.first + row,
            step: field.step,
        };
        best = lesser_row(words, ty, best, other);
    }
    best
}

// The lesser of two rows.
fn lesser_row(words: &[u32], ty: &LocalTy, best: Row, other: Row) -> Row
    requires width { leaves (local_type_of ty.now) ≤ usize.MAX }
    requires best { Stands words.now (local_type_of ty.now) best }
    requires other { Stands words.now (local_type_of ty.now) other }
    ensures stands { Stands words.now (local_type_of ty.now) result }
    ensures behind { (n : ℕ) → n ≤ best.first → n ≤ other.first → n ≤ result.first }
    ensures step { 0 < best.step → 0 < other.step → 0 < result.step }
    ensures value { let t = local_type_of ty.now in
        value_in words.now t result ≡ lesser_of (value_in words.now t best) (value_in words.now t other) }
{
    if is_less(compare_rows(words, ty, other, best)) {
        other
    } else {
        best
    }
}

/// The greatest of a field's values and of a local one, which stands behind the field.
#[tactic(auto, using(crate::proofs::Standing::leaves_fit))]
pub fn greatest_hood(words: &mut Vec<u32>, ty: &LocalTy, rows: usize, at: usize, own: usize)
    requires own { own < rows }
    requires within { let width = leaves (local_type_of ty.now) in
        at + rows * width + width ≤ length words.old.items }
    ensures before { (p : ℕ) → p < at → word_in words.new.items p ≡ word_in words.old.items p }
    ensures long { length words.new.items ≡ at + leaves (local_type_of ty.now) }
    ensures greatest { let t = local_type_of ty.now in local_in words.new.items t at
        ≡ greatest_of (local_in words.old.items t (at + rows * leaves t)) (other_rows words.old.items t rows at own) }
{
    let many = width(ty);
    let field = Row {
        first: at,
        step: rows,
    };
    let local = Row {
        first: at + rows * many,
        step: 1,
    };
    let first = greatest(words, ty, field, 0, own, local);
    let best = greatest(words, ty, field, own + 1, rows, first);
    end_with_row(words, best, at, many);
}

// The greatest of a row and some rows of a field, of which the first is given.
fn greatest(words: &[u32], ty: &LocalTy, field: Row, from: usize, to: usize, start: Row) -> Row
    requires width { leaves (local_type_of ty.now) ≤ usize.MAX }
    requires within { field.first + field.step * leaves (local_type_of ty.now) ≤ length words.now }
    requires rows { from ≤ to × to ≤ field.step }
    requires start { Stands words.now (local_type_of ty.now) start }
    requires behind { field.first ≤ start.first × 0 < start.step }
    ensures stands { Stands words.now (local_type_of ty.now) result }
    ensures behind { field.first ≤ result.first × 0 < result.step }
    ensures greatest { let t = local_type_of ty.now in value_in words.now t result
        ≡ greatest_of (value_in words.now t start) (rows_in words.now t field.step field.first from (to - from)) }
{
    let mut best = start;
    for row in from..to {
        let other = Row {
            first: field.first + row,
            step: field.step,
        };
        best = greater_row(words, ty, best, other);
    }
    best
}

// The greater of two rows.
fn greater_row(words: &[u32], ty: &LocalTy, best: Row, other: Row) -> Row
    requires width { leaves (local_type_of ty.now) ≤ usize.MAX }
    requires best { Stands words.now (local_type_of ty.now) best }
    requires other { Stands words.now (local_type_of ty.now) other }
    ensures stands { Stands words.now (local_type_of ty.now) result }
    ensures behind { (n : ℕ) → n ≤ best.first → n ≤ other.first → n ≤ result.first }
    ensures step { 0 < best.step → 0 < other.step → 0 < result.step }
    ensures value { let t = local_type_of ty.now in
        value_in words.now t result ≡ greater_of (value_in words.now t best) (value_in words.now t other) }
{
    if is_less(compare_rows(words, ty, best, other)) {
        other
    } else {
        best
    }
}

fn is_less(order: Ordering) -> bool
    ensures { result ≡ less_of order }
{
    match order {
        Ordering::Less => true,
        _ => false,
    }
}

// Puts a row that stands from a place on, or behind it, there as a local value, behind which nothing follows.
fn end_with_row(words: &mut Vec<u32>, row: Row, at: usize, width: usize)
    requires has_leaf { 0 < width }
    requires behind { at ≤ row.first × 0 < row.step }
    requires within { row.first + row.step * width < length words.old.items + row.step }
    ensures before { (p : ℕ) → p < at → word_in words.new.items p ≡ word_in words.old.items p }
    ensures long { length words.new.items ≡ at + width }
    ensures leaves { (k : ℕ) → k < width →
        word_in words.new.items (at + k) ≡ word_in words.old.items (row.first + row.step * k) }
{
    for leaf in 0..width {
        words[at + leaf] = words[row.first + row.step * leaf];
    }
    words.truncate(at + width);
}
