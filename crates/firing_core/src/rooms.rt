//! Rooms: memory for two copies, taken before a firing begins.

use fc_nodes::Unfolded;
use fc_values::{InputDecl, InputTy, Local, MOST_LINKS, Memory, overwrite};
use std::alloc::Global;
use std::marker::Model;
use value_trees::Snap;

/// Memory for two copies: what a begin puts in flight, and the equal copy that it answers.
#[derive(Drop)]
pub struct Room {
    first: Snap,
    second: Snap,
}

impl Model for Room {
    ghost use Rattle.std.specs.Coded.{codes};
    ghost use Rattle.fc_values.specs.contracts.values.Local as local;
    ghost use Rattle.firing_core.specs.Rooms.{RoomValue};

    ghost Value = { RoomValue };

    ghost coded = { Prim.hlevel (codes, local.the_row.coded) };

    ghost view = { λ r. record { first = r.first; second = r.second } };
}

impl Room {
    ghost use Rattle.std.specs.Prelude.{◌≡◌, IfOk};
    ghost use Rattle.fc_nodes.specs.Program.{Unfolding, unfolding_of};
    ghost use Rattle.value_trees.specs.Snaps.{IsSnap};
    ghost use Rattle.firing_core.specs.Rooms.{IsRoom};

    /// A room of a program.
    pub fn new(alloc: Global, program: &Unfolded) -> Result<Room, Memory>
        ensures { IfOk result (IsRoom (unfolding_of program.now)) }
    {
        let first = blank_copy(alloc, program)?;
        let second = blank_copy(alloc, program)?;
        Ok(Room { first, second })
    }

    /// The room of two copies that an end gave back. It takes memory only where they were made without a room.
    pub fn again(first: Snap, second: Snap) -> Result<Room, Memory>
        ensures { (U : Unfolding) → IsSnap U first → IsSnap U second → IfOk result (IsRoom U) }
    {
        let first = emptied(first)?;
        let second = emptied(second)?;
        Ok(Room { first, second })
    }

    /// The two copies.
    pub(crate) fn into_parts(self) -> (Snap, Snap)
        ensures first { result.0 ≡ self.first }
        ensures second { result.1 ≡ self.second }
    {
        let Room { first, second } = self;
        (first, second)
    }
}

ghost use Rattle.std.specs.Prelude.{◌≡◌, IfOk, map};
ghost use Rattle.fc_values.specs.Types.{input_of, input_type};
ghost use Rattle.fc_values.specs.Values.{local_of, form_of};
ghost use Rattle.fc_nodes.specs.Program.{Unfolding, unfolding_of};
ghost use Rattle.value_trees.specs.Snaps.{IsSnap};
ghost use Rattle.firing_core.specs.Rooms.{IsBlank, types_of};

/// A copy without exports, with a value of its type for each declared input.
fn blank_copy(alloc: Global, program: &Unfolded) -> Result<Snap, Memory>
    ensures { IfOk result (IsBlank (unfolding_of program.now)) }
{
    let inputs = blank_inputs(alloc, &program.declared().inputs)?;
    let near = Vec::with_capacity(alloc, MOST_LINKS)?;
    Ok(Snap {
        device: 0,
        inputs,
        own: None,
        near,
    })
}

/// A value of its type for each input.
fn blank_inputs(alloc: Global, inputs: &[InputDecl]) -> Result<Vec<Local>, Memory>
    ensures { IfOk result (λ v. types_of v.items ≡ map (λ i. input_type (input_of i).type) inputs.now) }
{
    let mut values = Vec::new(alloc);
    for input in inputs {
        values.push(blank_input(input.ty))?;
    }
    Ok(values)
}

/// A value of the type of an input.
fn blank_input(ty: InputTy) -> Local
    ensures { form_of (local_of result) ≡ input_type ty }
{
    match ty {
        InputTy::Truth => Local::Bool(false),
        InputTy::Whole(_, _) => Local::Int(0),
    }
}

/// Writes values over others of the same types. It takes no memory.
pub(crate) fn overwrite_locals(target: &mut [Local], source: &[Local])
    requires { types_of target.old ≡ types_of source.now }
    ensures { map local_of target.new ≡ map local_of source.now }
{
    for i in 0..target.len() {
        overwrite(&mut target[i], &source[i]);
    }
}

/// A copy without its exports, with room for as many neighbours as a device may have.
fn emptied(copy: Snap) -> Result<Snap, Memory>
    ensures { (U : Unfolding) → IsSnap U copy → IfOk result (IsBlank U) }
{
    let Snap {
        device,
        inputs,
        own: _,
        mut near,
    } = copy;
    near.clear();
    near.reserve(MOST_LINKS)?;
    Ok(Snap {
        device,
        inputs,
        own: None,
        near,
    })
}
