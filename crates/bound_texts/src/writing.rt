//! The texts of numbers and bounds, appended to a text that is dropped if memory runs out.

ghost use Rattle.std.specs.Prelude.{◌≡◌, ◌++◌, OnOk};
ghost use Rattle.std.specs.Fmt.{decimal};
ghost use Rattle.value_bounds.specs.BoundValues.{Between};
ghost use Rattle.value_bounds.specs.References.{local_bound_in};
ghost use Rattle.bound_texts.specs.BoundTexts.{bound_after_space, bound_text};

use fc_values::Memory;
use std::alloc::Global;
use value_bounds::LocalBound;

/// Appends a number.
pub(crate) fn write_number(alloc: Global, out: &mut Vec<u8>, n: u32) -> Result<(), Memory>
    ensures { OnOk result (out.new.items ≡ out.old.items ++ decimal n) }
{
    out.extend_from_slice(n.to_string(alloc)?.as_bytes())?;
    Ok(())
}

// Appends integers from a least to a greatest.
fn write_integers(alloc: Global, out: &mut Vec<u8>, least: u32, greatest: u32) -> Result<(), Memory>
    ensures { OnOk result (out.new.items ≡ out.old.items ++ bound_text (Between least greatest)) }
{
    write_number(alloc, out, least)?;
    if least != greatest {
        out.extend_from_slice(b"..")?;
        write_number(alloc, out, greatest)?;
    }
    Ok(())
}

// Appends a bound.
fn write_bound(alloc: Global, out: &mut Vec<u8>, bound: &LocalBound) -> Result<(), Memory>
    ensures { OnOk result (out.new.items ≡ out.old.items ++ bound_text (local_bound_in bound.now)) }
{
    match bound {
        LocalBound::Between(least, greatest) => write_integers(alloc, out, *least, *greatest)?,
        LocalBound::Truths(true, true) => out.extend_from_slice(b"true")?,
        LocalBound::Truths(false, false) => out.extend_from_slice(b"false")?,
        LocalBound::Truths(_, _) | LocalBound::Unbounded => out.extend_from_slice(b"any")?,
        LocalBound::Both(a, b) => {
            out.push(b'(')?;
            write_bound(alloc, out, a)?;
            out.push(b',')?;
            write_bound(alloc, out, b)?;
            out.push(b')')?;
        }
    }
    Ok(())
}

/// Appends a bound after a space.
pub(crate) fn write_after_space(
    alloc: Global,
    out: &mut Vec<u8>,
    bound: &LocalBound,
) -> Result<(), Memory>
    ensures { OnOk result (out.new.items ≡ out.old.items ++ bound_after_space (local_bound_in bound.now)) }
{
    out.push(b' ')?;
    write_bound(alloc, out, bound)
}
