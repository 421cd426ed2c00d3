//! Which copies fit a program.

ghost use Rattle.std.specs.Prelude.{◌≡◌, ◌↔◌, ◌≤◌, IsTrue, map};
ghost use Rattle.fc_values.specs.Types.{declarations_of, input_of};
ghost use Rattle.fc_values.specs.Values.{local_of};
ghost use Rattle.fc_nodes.specs.Program.{unfolding_of, IsProgram};
ghost use Rattle.fc_values.specs.Inputs.{InputFits, InputsFit};
ghost use Rattle.value_trees.specs.Copies.{WhereSome};
ghost use Rattle.value_trees.specs.Snaps.{IsExportOf, IsSnap};
ghost use Rattle.value_trees.specs.Fitting.{ComesBefore, IsNear, NearRises};

use crate::copies::{Near, Snap};
use crate::published::Published;
use crate::walks::well_typed;
use fc_nodes::Unfolded;
use fc_values::{InputDecl, InputTy, Local, MOST_LINKS};

/// Whether a copy fits a program: what a firing may read. It takes no memory.
pub fn snap_fits(program: &Unfolded, s: &Snap) -> bool
    ensures { IsTrue result ↔ IsSnap (unfolding_of program.now) s.now }
{
    if !inputs_fit(&program.declared().inputs, &s.inputs) {
        return false;
    }
    if !own_fits(program, &s.own) {
        return false;
    }
    if s.near.len() > MOST_LINKS {
        return false;
    }
    near_fit(program, s.device, &s.near)
}

// Whether the inputs of a copy fit the declared ones.
fn inputs_fit(declared: &[InputDecl], inputs: &[Local]) -> bool
    ensures { IsTrue result ↔ InputsFit (map input_of declared.now) (map local_of inputs.now) }
{
    let Some((first, rest)) = declared.split_first() else {
        return inputs.is_empty();
    };
    let Some((value, others)) = inputs.split_first() else {
        return false;
    };
    input_fits(&first.ty, value) && inputs_fit(rest, others)
}

// Whether a value is one of a declared input.
fn input_fits(ty: &InputTy, value: &Local) -> bool
    ensures { IsTrue result ↔ InputFits ty.now (local_of value.now) }
{
    match (ty, value) {
        (InputTy::Truth, Local::Bool(_)) => true,
        (InputTy::Whole(least, greatest), Local::Int(n)) => *least <= *n && *n <= *greatest,
        _ => false,
    }
}

fn own_fits(program: &Unfolded, own: &Option<Published>) -> bool
    ensures { IsTrue result ↔ WhereSome (IsExportOf (unfolding_of program.now)) own.now }
{
    match own {
        Some(export) => well_typed(program, export.get()),
        None => true,
    }
}

// Whether the neighbours of a copy of a device fit, with rising numbers.
fn near_fit(program: &Unfolded, device: u32, near: &[Near]) -> bool
    ensures { IsTrue result ↔ NearRises (unfolding_of program.now) device near.now }
{
    let Some((first, rest)) = near.split_first() else {
        return true;
    };
    one_fits(program, device, first)
        && comes_before(first.device, rest)
        && near_fit(program, device, rest)
}

// Whether a number is below that of the first of some neighbours.
fn comes_before(device: u32, rest: &[Near]) -> bool
    ensures { IsTrue result ↔ ComesBefore device rest.now }
{
    match rest.first() {
        Some(next) => device < next.device,
        None => true,
    }
}

// Whether a neighbour in a copy of a device fits.
fn one_fits(program: &Unfolded, device: u32, near: &Near) -> bool
    ensures { IsTrue result ↔ IsNear (unfolding_of program.now) device near.now }
{
    let (least, greatest) = program.declared().metric;
    near.device != device
        && least <= near.weight
        && near.weight <= greatest
        && well_typed(program, near.export.get())
}
