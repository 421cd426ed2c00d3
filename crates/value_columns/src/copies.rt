//! A local value in each row of a field.

ghost use Rattle.std.specs.Prelude.{◌≡◌, ℕ, ◌+◌, ◌*◌, ◌<◌, ◌≤◌, IfOk, length};
ghost use Rattle.fc_values.specs.Types.{leaves, local_type_of};
ghost use Rattle.value_columns.specs.Columns.{local_in, row_in, word_in};

use crate::gaps::close_gap;
use crate::widths::width;
use fc_values::{LocalTy, Memory};

/// Puts the local value that is the last on the stack, from `at` on, into each of so many rows in its place.
pub fn spread(words: &mut Vec<u32>, ty: &LocalTy, at: usize, rows: usize) -> Result<(), Memory>
    requires { length words.old.items ≡ at + leaves (local_type_of ty.now) }
    ensures values { IfOk result (λ _. (i : ℕ) → i < rows → row_in words.new.items (local_type_of ty.now) rows at i
        ≡ local_in words.old.items (local_type_of ty.now) at) }
    ensures before { IfOk result (λ _. (p : ℕ) → p < at → word_in words.new.items p ≡ word_in words.old.items p) }
    ensures length { IfOk result (λ _. length words.new.items ≡ at + rows * leaves (local_type_of ty.now)) }
{
    let many = width(ty);
    for leaf in 0..many {
        repeat_word(words, at + leaf, rows)?;
    }
    close_gap(words, at, many);
    Ok(())
}

// Adds the word at a place so many times behind the words.
fn repeat_word(words: &mut Vec<u32>, place: usize, rows: usize) -> Result<(), Memory>
    requires { place < length words.old.items }
    ensures long { IfOk result (λ _. length words.new.items ≡ length words.old.items + rows) }
    ensures stay { IfOk result (λ _.
        (p : ℕ) → p < length words.old.items → word_in words.new.items p ≡ word_in words.old.items p) }
    ensures added { IfOk result (λ _. (i : ℕ) → i < rows
        → word_in words.new.items (length words.old.items + i) ≡ word_in words.old.items place) }
{
    for _row in 0..rows {
        words.push(words[place])?;
    }
    Ok(())
}
