//! The texts of numbers and local values, appended to a text that is dropped if memory runs out.

ghost use Rattle.std.specs.Prelude.{◌≡◌, ◌++◌, OnOk, codes};
ghost use Rattle.std.specs.Fmt.{decimal};
ghost use Rattle.fc_values.specs.Values.{local_of};
ghost use Rattle.report.specs.Texts.{value_text, after_space};

use fc_values::{Local, Memory};
use std::alloc::Global;

/// Appends a number.
pub(crate) fn write_number(alloc: Global, out: &mut Vec<u8>, n: u32) -> Result<(), Memory>
    ensures { OnOk result (out.new.items ≡ out.old.items ++ decimal n) }
{
    out.extend_from_slice(n.to_string(alloc)?.as_bytes())?;
    Ok(())
}

/// Appends a local value.
pub(crate) fn write_value(alloc: Global, out: &mut Vec<u8>, value: &Local) -> Result<(), Memory>
    ensures { OnOk result (out.new.items ≡ out.old.items ++ value_text (local_of value.now)) }
{
    match value {
        Local::Int(n) => write_number(alloc, out, *n)?,
        Local::Bool(true) => out.extend_from_slice(b"true")?,
        Local::Bool(false) => out.extend_from_slice(b"false")?,
        Local::Pair(a, b) => {
            out.push(b'(')?;
            write_value(alloc, out, a)?;
            out.push(b',')?;
            write_value(alloc, out, b)?;
            out.push(b')')?;
        }
    }
    Ok(())
}

/// Appends a local value after a space.
pub fn write_after_space(alloc: Global, out: &mut Vec<u8>, value: &Local) -> Result<(), Memory>
    ensures { OnOk result (out.new.items ≡ out.old.items ++ after_space (local_of value.now)) }
{
    out.push(b' ')?;
    write_value(alloc, out, value)
}
