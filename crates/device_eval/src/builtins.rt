//! Builtins on arguments that are the last of the words. None of them takes memory for a value of its own.

ghost use Rattle.std.specs.Prelude.{◌≡◌, ℕ, ◌+◌, ◌*◌, ◌<◌, OnOk, Some, length};
ghost use Rattle.fc_values.specs.Builtins.{local_value};
ghost use Rattle.fc_values.specs.BuiltinTypes.{HasRule, Takes, inner as inner_type, inners};
ghost use Rattle.fc_values.specs.Types.{leaves, local_type_of, type_of};
ghost use Rattle.fc_nodes.specs.Terms.{term_at, term_type};
ghost use Rattle.value_columns.specs.Arguments.{arguments_in, leaves_of};
ghost use Rattle.value_columns.specs.Columns.{row_in, word_in};
ghost use Rattle.device_eval.specs.Kids.{Applied, AreWithin, EndsWith, Filled, kid_types, rows_for, words_of_all};

use fc_nodes::{Node, Unfolded, ceiling_of};
use fc_values::{Builtin, LocalTy, Memory, Ty, inner};
use value_columns::{
    all_hood, any_hood, apply_operator, greatest_hood, least_hood, spread, sum_hood,
};

/// How many rows a value of a type has, where a field is over so many devices.
pub fn rows_of(ty: &Ty, devices: usize) -> usize
    ensures { result ≡ rows_for (type_of ty.now) 1 devices }
{
    match ty {
        Ty::Local(_) => 1,
        Ty::Field(_) => devices,
    }
}

/// Puts a local value that is the last of the words, from `at` on, into each of so many rows. A field stays as it is.
pub fn fill_rows(words: &mut Vec<u32>, ty: &Ty, at: usize, rows: usize) -> Result<(), Memory>
    requires { EndsWith (type_of ty.now) at words.old.items }
    ensures { OnOk result (Filled (type_of ty.now) rows at words.old.items words.new.items) }
{
    let Ty::Local(local) = ty else {
        return Ok(());
    };
    if rows == 1 {
        return Ok(());
    }
    spread(words, local, at, rows)?;
    Ok(())
}

/// Puts the value of a node's builtin in place of its arguments, which are the last of the words, from `at` on. Fields
/// are over so many devices, of which the firing one has the row `own`.
#[inline(never)]
pub fn apply_builtin(
    words: &mut Vec<u32>,
    program: &Unfolded,
    node: &Node,
    builtin: Builtin,
    devices: usize,
    own: usize,
    at: usize,
)
    requires rule { HasRule builtin (kid_types program.now.nodes node.now.kids.items) (type_of node.now.ty) }
    requires kids { AreWithin (length program.now.nodes) node.now.kids.items }
    requires own { own < devices }
    requires length { let t = type_of node.now.ty in length words.old.items
        ≡ at + words_of_all (kid_types program.now.nodes node.now.kids.items) (rows_for t 1 devices) devices }
    ensures { Applied builtin program.now.declared.ceiling (kid_types program.now.nodes node.now.kids.items)
        (type_of node.now.ty) devices own at words.old.items words.new.items }
{
    let ty = inner(&node.ty);
    match builtin {
        Builtin::SumHood => sum_hood(words, devices, at, own, ceiling_of(program)),
        Builtin::AnyHood => any_hood(words, devices, at, own),
        Builtin::AllHood => all_hood(words, devices, at, own),
        Builtin::MinHoodLoc => least_hood(words, ty, devices, at, own),
        Builtin::MaxHoodLoc => greatest_hood(words, ty, devices, at, own),
        _ => {
            let rows = rows_of(&node.ty, devices);
            operate(words, program, builtin, &node.kids, ty, at, rows);
        }
    }
}

// Puts the values of an operator in place of its arguments, in so many rows.
fn operate(
    words: &mut Vec<u32>,
    program: &Unfolded,
    builtin: Builtin,
    kids: &[u32],
    ty: &LocalTy,
    at: usize,
    rows: usize,
)
    requires types { Takes builtin (inners (kid_types program.now.nodes kids.now)) (local_type_of ty.now) }
    requires kids { AreWithin (length program.now.nodes) kids.now }
    requires some { 0 < rows }
    requires length { length words.old.items
        ≡ at + rows * leaves_of (inners (kid_types program.now.nodes kids.now)) }
    ensures values { (i : ℕ) → i < rows → local_value builtin program.now.declared.ceiling
        (arguments_in words.old.items (inners (kid_types program.now.nodes kids.now)) rows at i)
        ≡ Some (row_in words.new.items (local_type_of ty.now) rows at i) }
    ensures before { (p : ℕ) → p < at → word_in words.new.items p ≡ word_in words.old.items p }
    ensures length { length words.new.items ≡ at + rows * leaves (local_type_of ty.now) }
{
    let ceiling = ceiling_of(program);
    match kids {
        [a] => {
            let types = [kid_type(program, *a)];
            apply_operator(words, builtin, &types, ty, at, rows, ceiling);
        }
        [a, b] => {
            let types = [kid_type(program, *a), kid_type(program, *b)];
            apply_operator(words, builtin, &types, ty, at, rows, ceiling);
        }
        [a, b, c] => {
            let types = [
                kid_type(program, *a),
                kid_type(program, *b),
                kid_type(program, *c),
            ];
            apply_operator(words, builtin, &types, ty, at, rows, ceiling);
        }
        _ => unreachable!(),
    }
}

// The local type of the node at a place.
fn kid_type(program: &Unfolded, place: u32) -> &LocalTy
    requires { place < length program.now.nodes }
    ensures { local_type_of result.now ≡ inner_type (term_type (term_at program.now.nodes place)) }
{
    inner(&program.node(place).ty)
}
