//! The order of the values in two rows.

ghost use Rattle.std.specs.Prelude.{◌≡◌, ◌+◌, ◌*◌, ◌<◌, ◌≤◌, length};
ghost use Rattle.fc_values.specs.Types.{leaves, local_type_of};
ghost use Rattle.fc_values.specs.Values.{compare_values};
ghost use Rattle.value_columns.specs.LoneRows.{Stands, value_in};

use crate::widths::width;
use fc_values::LocalTy;
use std::cmp::Ordering;

/// A row: the place of its first leaf, and how far apart its leaves stand.
#[derive(Clone, Copy)]
pub struct Row {
    pub first: usize,
    pub step: usize,
}

/// The order of the values of a type in two rows.
#[tactic(auto, using(crate::proofs::Standing::leaves_fit))]
pub fn compare_rows(words: &[u32], ty: &LocalTy, a: Row, b: Row) -> Ordering
    requires width { leaves (local_type_of ty.now) ≤ usize.MAX }
    requires first { Stands words.now (local_type_of ty.now) a }
    requires second { Stands words.now (local_type_of ty.now) b }
    ensures { result
        ≡ compare_values (value_in words.now (local_type_of ty.now) a) (value_in words.now (local_type_of ty.now) b) }
{
    match ty {
        LocalTy::Int => words[a.first].cmp(&words[b.first]),
        LocalTy::Bool => (words[a.first] != 0).cmp(&(words[b.first] != 0)),
        LocalTy::Pair(s, t) => match compare_rows(words, s, a, b) {
            Ordering::Equal => {
                let leaves = width(s);
                compare_rows(words, t, behind(a, leaves), behind(b, leaves))
            }
            other => other,
        },
    }
}

// The same row behind some leaves.
fn behind(row: Row, leaves: usize) -> Row
    requires { row.first + row.step * leaves ≤ usize.MAX }
    ensures first { result.first ≡ row.first + row.step * leaves }
    ensures step { result.step ≡ row.step }
{
    Row {
        first: row.first + row.step * leaves,
        step: row.step,
    }
}
