//! Operators on values of any type, row by row.

ghost use Rattle.std.specs.Prelude.{◌≡◌, ◌≢◌, ℕ, ◌+◌, ◌*◌, ◌<◌, ◌≤◌, length, if◌then◌else◌};
ghost use Rattle.fc_values.specs.Types.{leaves, local_type_of};
ghost use Rattle.fc_values.specs.Values.{compare_values, is_less as less_of};
ghost use Rattle.value_columns.specs.Arguments.{kept};
ghost use Rattle.value_columns.specs.Columns.{StandsBelow, row_in, truth_of, word_in};
ghost use Rattle.value_columns.specs.LoneRows.{Stands, value_in};

use crate::leaves::word_of;
use crate::order::{Row, compare_rows};
use crate::widths::width;
use fc_values::LocalTy;
use std::cmp::Ordering;

// Copies the leaves of a row to where those of another one stand.
fn copy_row(words: &mut [u32], width: usize, rows: usize, from: usize, to: usize)
    requires below { to < from }
    requires some { 0 < rows }
    requires within { StandsBelow (length words.old) width rows from }
    ensures copied { (k : ℕ) → k < width → word_in words.new (to + rows * k) ≡ word_in words.old (from + rows * k) }
    ensures others { (p : ℕ) → ((k : ℕ) → k < width → p ≢ to + rows * k) → word_in words.new p ≡ word_in words.old p }
{
    for leaf in 0..width {
        words[to + rows * leaf] = words[from + rows * leaf];
    }
}

// Whether the second of two rows is the greater, or the lesser, one.
fn takes_second(words: &[u32], ty: &LocalTy, first: Row, second: Row, greatest: bool) -> bool
    requires width { leaves (local_type_of ty.now) ≤ usize.MAX }
    requires first { Stands words.now (local_type_of ty.now) first }
    requires second { Stands words.now (local_type_of ty.now) second }
    ensures { let a = value_in words.now (local_type_of ty.now) first in
        let b = value_in words.now (local_type_of ty.now) second in (if result then b else a) ≡ kept greatest a b }
{
    if greatest {
        is_less(compare_rows(words, ty, first, second))
    } else {
        is_less(compare_rows(words, ty, second, first))
    }
}

/// Whether an order is `Less`.
pub fn is_less(order: Ordering) -> bool
    ensures { result ≡ less_of order }
{
    order == Ordering::Less
}

// Copies the second of two rows over the first, if it is the greater, or the lesser, of both.
fn keep_row(words: &mut [u32], ty: &LocalTy, first: Row, second: Row, greatest: bool)
    requires width { leaves (local_type_of ty.now) ≤ usize.MAX }
    requires some { 0 < first.step }
    requires step { second.step ≡ first.step }
    requires below { first.first < second.first }
    requires stands { Stands words.old (local_type_of ty.now) second }
    ensures kept { let t = local_type_of ty.now in
        value_in words.new t first ≡ kept greatest (value_in words.old t first) (value_in words.old t second) }
    ensures others { (p : ℕ) → ((k : ℕ) → k < leaves (local_type_of ty.now) → p ≢ first.first + first.step * k)
        → word_in words.new p ≡ word_in words.old p }
{
    if takes_second(words, ty, first, second, greatest) {
        copy_row(words, width(ty), first.step, second.first, first.first);
    }
}

/// The greater, or the lesser, of each two rows of a type, in place of the first one.
pub fn keep_rows(words: &mut [u32], ty: &LocalTy, at: usize, rows: usize, greatest: bool)
    requires within { let width = leaves (local_type_of ty.now) in
        at + rows * width + rows * width ≤ length words.old }
    requires width { leaves (local_type_of ty.now) ≤ usize.MAX }
    ensures values { let t = local_type_of ty.now in (i : ℕ) → i < rows → row_in words.new t rows at i
        ≡ kept greatest (row_in words.old t rows at i) (row_in words.old t rows (at + rows * leaves t) i) }
    ensures before { (p : ℕ) → p < at → word_in words.new p ≡ word_in words.old p }
{
    let other = at + rows * width(ty);
    for row in 0..rows {
        let first = Row {
            first: at + row,
            step: rows,
        };
        let second = Row {
            first: other + row,
            step: rows,
        };
        keep_row(words, ty, first, second, greatest);
    }
}

/// One of each two rows of a type, in place of the truth value before them that says whether it is the first.
pub fn select_rows(words: &mut [u32], ty: &LocalTy, at: usize, rows: usize)
    requires within { let width = leaves (local_type_of ty.now) in
        at + rows + rows * width + rows * width ≤ length words.old }
    requires width { leaves (local_type_of ty.now) ≤ usize.MAX }
    ensures values { let t = local_type_of ty.now in (i : ℕ) → i < rows → row_in words.new t rows at i
        ≡ (if truth_of (word_in words.old (at + i)) then row_in words.old t rows (at + rows) i
        else row_in words.old t rows (at + rows + rows * leaves t) i) }
    ensures before { (p : ℕ) → p < at → word_in words.new p ≡ word_in words.old p }
{
    let width = width(ty);
    let first = at + rows;
    let second = first + rows * width;
    for row in 0..rows {
        let chosen = chosen_place(words[at + row], first, second);
        copy_row(words, width, rows, chosen + row, at + row);
    }
}

// The first place, if the word is a true value, or else the second one.
fn chosen_place(word: u32, first: usize, second: usize) -> usize
    requires { first ≤ second }
    ensures place { result ≡ (if truth_of word then first else second) }
    ensures from { first ≤ result }
    ensures to { result ≤ second }
{
    if word != 0 { first } else { second }
}

/// Whether the order of each two rows of a type passes a test, in place of the first leaf of the first one.
pub fn test_rows<F: Fn(Ordering) -> bool>(
    words: &mut [u32],
    ty: &LocalTy,
    at: usize,
    rows: usize,
    test: F,
)
    requires callable { F.IsAlwaysCallable test }
    requires within { let width = leaves (local_type_of ty.now) in
        at + rows * width + rows * width ≤ length words.old }
    requires width { leaves (local_type_of ty.now) ≤ usize.MAX }
    ensures values { let t = local_type_of ty.now in (i : ℕ) → i < rows
        → F.post test (compare_values (row_in words.old t rows at i) (row_in words.old t rows (at + rows * leaves t) i))
        (truth_of (word_in words.new (at + i))) }
    ensures before { (p : ℕ) → p < at → word_in words.new p ≡ word_in words.old p }
{
    let other = at + rows * width(ty);
    for row in 0..rows {
        let first = Row {
            first: at + row,
            step: rows,
        };
        let second = Row {
            first: other + row,
            step: rows,
        };
        let order = compare_rows(words, ty, first, second);
        words[at + row] = word_of(test(order));
    }
}
