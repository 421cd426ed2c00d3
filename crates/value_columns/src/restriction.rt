//! Rows of words: chosen ones.

ghost use Rattle.std.specs.Prelude.{◌≡◌, ◌+◌, ◌*◌, ◌<◌, ◌≤◌, ℕ, IfOk, length};
ghost use Rattle.fc_values.specs.Types.{leaves, local_type_of};
ghost use Rattle.value_columns.specs.Columns.{row_in, word_in};

use crate::widths::width;
use fc_values::{LocalTy, Memory};

/// Adds, behind the words, the rows of these numbers of a value of which so many rows stand from a place on.
pub fn choose_rows(
    words: &mut Vec<u32>,
    ty: &LocalTy,
    rows: usize,
    at: usize,
    kept: &[u32],
) -> Result<(), Memory>
    requires has_rows { 0 < rows }
    requires below { (j : ℕ) → j < length kept.now → word_in kept.now j < rows }
    requires within { at + rows * leaves (local_type_of ty.now) ≤ length words.old.items }
    ensures stay { IfOk result (λ _.
        (p : ℕ) → p < length words.old.items → word_in words.new.items p ≡ word_in words.old.items p) }
    ensures long { IfOk result (λ _. length words.new.items
        ≡ length words.old.items + length kept.now * leaves (local_type_of ty.now)) }
    ensures chosen { IfOk result (λ _. (j : ℕ) → j < length kept.now →
        row_in words.new.items (local_type_of ty.now) (length kept.now) (length words.old.items) j
        ≡ row_in words.old.items (local_type_of ty.now) rows at (word_in kept.now j)) }
{
    for leaf in 0..width(ty) {
        choose_column(words, at + rows * leaf, kept)?;
    }
    Ok(())
}

// Adds the words of these numbers in one column.
fn choose_column(words: &mut Vec<u32>, at: usize, kept: &[u32]) -> Result<(), Memory>
    requires { (j : ℕ) → j < length kept.now → at + word_in kept.now j < length words.old.items }
    ensures long { IfOk result (λ _. length words.new.items ≡ length words.old.items + length kept.now) }
    ensures stay { IfOk result (λ _.
        (p : ℕ) → p < length words.old.items → word_in words.new.items p ≡ word_in words.old.items p) }
    ensures chosen { IfOk result (λ _. (j : ℕ) → j < length kept.now →
        word_in words.new.items (length words.old.items + j) ≡ word_in words.old.items (at + word_in kept.now j)) }
{
    for row in kept {
        words.push(words[at + *row as usize])?;
    }
    Ok(())
}
