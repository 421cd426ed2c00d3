//! Types, and the declarations of a program.

ghost use Rattle.std.specs.Prelude.{◌≡◌, map, IfOk};
ghost use Rattle.fc_values.specs.BuiltinTypes.{inner as inner_type};
ghost use Rattle.fc_values.specs.Types.{input_of, declarations_of, local_type_of, type_of};

use crate::memory::Memory;
use std::alloc::Global;

/// A type of local values.
#[derive(Drop)]
pub enum LocalTy {
    Int,
    Bool,
    Pair(Box<LocalTy>, Box<LocalTy>),
}

/// A type of values: of local values, or of fields of them.
#[derive(Drop)]
pub enum Ty {
    Local(LocalTy),
    Field(LocalTy),
}

/// The local type of a value, or of a field's values.
pub fn inner(ty: &Ty) -> &LocalTy
    ensures { local_type_of result.now ≡ inner_type (type_of ty.now) }
{
    match ty {
        Ty::Local(local) => local,
        Ty::Field(local) => local,
    }
}

/// The type of an input: a truth value, or a whole number between two bounds, both included.
#[derive(Clone, Copy, Debug, PartialEq, Eq)]
pub enum InputTy {
    Truth,
    Whole(u32, u32),
}

/// A name of a program: a letter, then letters, digits and `_`.
#[derive(Drop)]
pub struct Name {
    pub text: Vec<u8>,
}

/// A declared input.
#[derive(Drop)]
pub struct InputDecl {
    pub name: Name,
    pub ty: InputTy,
}

/// What a program declares: the greatest integer, the inputs in order, and the least and greatest weight of a link.
#[derive(Drop)]
pub struct Declared {
    pub ceiling: u32,
    pub inputs: Vec<InputDecl>,
    pub metric: (u32, u32),
}

/// A copy of declarations.
pub fn copy_declared(alloc: Global, declared: &Declared) -> Result<Declared, Memory>
    ensures { IfOk result (λ d. declarations_of d ≡ declarations_of declared.now) }
{
    let inputs = copy_inputs(alloc, &declared.inputs)?;
    Ok(Declared {
        ceiling: declared.ceiling,
        inputs,
        metric: declared.metric,
    })
}

fn copy_inputs(alloc: Global, inputs: &[InputDecl]) -> Result<Vec<InputDecl>, Memory>
    ensures { IfOk result (λ v. map input_of v.items ≡ map input_of inputs.now) }
{
    let mut copies = Vec::with_capacity(alloc, inputs.len())?;
    for input in inputs {
        let text = Vec::from_slice(alloc, &input.name.text)?;
        let name = Name { text };
        copies.push(InputDecl { name, ty: input.ty })?;
    }
    Ok(copies)
}
