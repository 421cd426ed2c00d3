//! Operators on values of one leaf: whole numbers and truth values.

ghost use Rattle.std.specs.Prelude.{◌≡◌, ℕ, ◌+◌, ◌*◌, ◌<◌, ◌≤◌, length, min, not};
ghost use Rattle.value_columns.specs.Columns.{truth_of, word_in};

use fc_values::add_cut;

/// A function of the words of two columns, in place of the first one.
pub fn combine<F: Fn(u32, u32) -> u32>(words: &mut [u32], at: usize, rows: usize, f: F)
    requires callable { F.IsAlwaysCallable f }
    requires within { at + rows + rows ≤ length words.old }
    ensures values { (i : ℕ) → i < rows
        → F.post f (word_in words.old (at + i)) (word_in words.old (at + rows + i)) (word_in words.new (at + i)) }
    ensures before { (p : ℕ) → p < at → word_in words.new p ≡ word_in words.old p }
{
    for row in 0..rows {
        words[at + row] = f(words[at + row], words[at + rows + row]);
    }
}

/// The lesser of the first of three columns and the sum of the others, in place of the first one.
pub fn rise(words: &mut [u32], at: usize, rows: usize)
    requires { at + rows + rows + rows ≤ length words.old }
    ensures values { (i : ℕ) → i < rows → word_in words.new (at + i)
        ≡ min (word_in words.old (at + i))
        (word_in words.old (at + rows + i) + word_in words.old (at + rows + rows + i)) }
    ensures before { (p : ℕ) → p < at → word_in words.new p ≡ word_in words.old p }
{
    for row in 0..rows {
        let sum = at + rows + row;
        words[at + row] = add_cut(words[sum], words[sum + rows], words[at + row]);
    }
}

/// The other truth value, in place of each of a column.
pub fn negate(words: &mut [u32], at: usize, rows: usize)
    requires { at + rows ≤ length words.old }
    ensures values { (i : ℕ) → i < rows
        → truth_of (word_in words.new (at + i)) ≡ not (truth_of (word_in words.old (at + i))) }
    ensures before { (p : ℕ) → p < at → word_in words.new p ≡ word_in words.old p }
{
    for row in 0..rows {
        words[at + row] = word_of(words[at + row] == 0);
    }
}

/// The word of a truth value.
pub fn word_of(truth: bool) -> u32
    ensures { truth_of result ≡ truth }
{
    u32::from(truth)
}
