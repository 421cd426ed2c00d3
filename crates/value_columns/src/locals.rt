//! Local values as words, and a row of words as a local value.

ghost use Rattle.std.specs.Prelude.{◌≡◌, ℕ, ◌+◌, ◌*◌, ◌<◌, ◌≤◌, ◌++◌, IfOk, length};
ghost use Rattle.fc_values.specs.Types.{leaves, local_type_of};
ghost use Rattle.fc_values.specs.Values.{form_of, local_of};
ghost use Rattle.value_columns.specs.Columns.{local_in, row_in, word_in};
ghost use Rattle.value_columns.specs.LocalWords.{local_at, words_of};

use crate::widths::width;
use fc_values::{Local, LocalTy, Memory};
use std::alloc::Global;

/// Adds a local value behind the words.
pub fn push_value(words: &mut Vec<u32>, value: &Local) -> Result<(), Memory>
    ensures added { IfOk result (λ _. words.new.items ≡ words.old.items ++ words_of (local_of value.now)) }
    ensures reads { IfOk result (λ _. local_in words.new.items (form_of (local_of value.now)) (length words.old.items)
        ≡ local_of value.now) }
{
    match value {
        Local::Int(n) => words.push(*n)?,
        Local::Bool(b) => words.push(u32::from(*b))?,
        Local::Pair(a, b) => {
            push_value(words, a)?;
            push_value(words, b)?;
        }
    }
    Ok(())
}

/// Adds local values of a type behind the words, as the rows of one value: the first leaf of each, then the next leaf.
pub fn push_rows(words: &mut Vec<u32>, ty: &LocalTy, values: &[&Local]) -> Result<(), Memory>
    requires width { leaves (local_type_of ty.now) ≤ usize.MAX }
    requires forms { (i : ℕ) → i < length values.now → form_of (local_at values.now i) ≡ local_type_of ty.now }
    ensures stay { IfOk result (λ _.
        (p : ℕ) → p < length words.old.items → word_in words.new.items p ≡ word_in words.old.items p) }
    ensures long { IfOk result (λ _. length words.new.items
        ≡ length words.old.items + length values.now * leaves (local_type_of ty.now)) }
    ensures reads { IfOk result (λ _. (i : ℕ) → i < length values.now →
        row_in words.new.items (local_type_of ty.now) (length values.now) (length words.old.items) i
        ≡ local_at values.now i) }
{
    for leaf in 0..width(ty) {
        push_column(words, values, leaf)?;
    }
    Ok(())
}

// Adds one leaf of each value.
#[tactic(auto, using(crate::proofs::LocalReads::local_read))]
fn push_column(words: &mut Vec<u32>, values: &[&Local], leaf: usize) -> Result<(), Memory>
    requires width { (i : ℕ) → i < length values.now → leaves (form_of (local_at values.now i)) ≤ usize.MAX }
    requires leaf { (i : ℕ) → i < length values.now → leaf < leaves (form_of (local_at values.now i)) }
    ensures stay { IfOk result (λ _.
        (p : ℕ) → p < length words.old.items → word_in words.new.items p ≡ word_in words.old.items p) }
    ensures long { IfOk result (λ _. length words.new.items ≡ length words.old.items + length values.now) }
    ensures column { IfOk result (λ _. (i : ℕ) → i < length values.now →
        word_in words.new.items (length words.old.items + i) ≡ word_in (words_of (local_at values.now i)) leaf) }
{
    for value in values {
        words.push(leaf_at(value, leaf))?;
    }
    Ok(())
}

/// The word of a leaf of a value, by its number from 0.
pub fn leaf_at(value: &Local, leaf: usize) -> u32
    requires width { leaves (form_of (local_of value.now)) ≤ usize.MAX }
    requires leaf { leaf < leaves (form_of (local_of value.now)) }
    ensures { result ≡ word_in (words_of (local_of value.now)) leaf }
{
    match value {
        Local::Int(n) => *n,
        Local::Bool(b) => u32::from(*b),
        Local::Pair(a, b) => {
            let many = leaf_count(a);
            if leaf < many {
                leaf_at(a, leaf)
            } else {
                leaf_at(b, leaf - many)
            }
        }
    }
}

// How many leaves a value has.
fn leaf_count(value: &Local) -> usize
    requires { leaves (form_of (local_of value.now)) ≤ usize.MAX }
    ensures { result ≡ leaves (form_of (local_of value.now)) }
{
    match value {
        Local::Int(_) | Local::Bool(_) => 1,
        Local::Pair(a, b) => leaf_count(a) + leaf_count(b),
    }
}

/// The value in a row, where so many rows of values of a type stand from a place on.
#[tactic(auto, using(crate::proofs::Standing::leaves_fit))]
pub fn value_at(
    alloc: Global,
    words: &[u32],
    ty: &LocalTy,
    rows: usize,
    at: usize,
    row: usize,
) -> Result<Local, Memory>
    requires below { row < rows }
    requires within { at + rows * leaves (local_type_of ty.now) ≤ length words.now }
    ensures { IfOk result (λ v. local_of v ≡ row_in words.now (local_type_of ty.now) rows at row) }
{
    match ty {
        LocalTy::Int => Ok(Local::Int(words[at + row])),
        LocalTy::Bool => Ok(Local::Bool(words[at + row] != 0)),
        LocalTy::Pair(a, b) => {
            let behind = at + rows * width(a);
            let first = Box::new(alloc, value_at(alloc, words, a, rows, at, row)?)?;
            let second = Box::new(alloc, value_at(alloc, words, b, rows, behind, row)?)?;
            Ok(Local::Pair(first, second))
        }
    }
}
