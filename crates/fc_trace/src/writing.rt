//! The text of walks.

ghost use Rattle.std.specs.Prelude.{◌≡◌, ◌++◌, IfOk, OnOk, codes};
ghost use Rattle.std.specs.Fmt.{decimal};
ghost use Rattle.walks.specs.Walks.{claim_of, evidence_of};
ghost use Rattle.fc_trace.specs.Texts.{number_after_space, numbers_after, walk_line, walks_text};

use fc_values::Memory;
use std::alloc::Global;
use walks::Evidence;

/// Appends the line of each device.
pub fn write_walks(alloc: Global, out: &mut Vec<u8>, claim: &[Evidence]) -> Result<(), Memory>
    ensures { OnOk result (out.new.items ≡ out.old.items ++ walks_text (claim_of claim.now)) }
{
    for one in claim {
        write_walk(alloc, out, one)?;
    }
    Ok(())
}

// Appends the line of a device.
fn write_walk(alloc: Global, out: &mut Vec<u8>, one: &Evidence) -> Result<(), Memory>
    ensures { OnOk result (out.new.items ≡ out.old.items ++ walk_line (evidence_of one.now)) }
{
    write_number(alloc, out, one.device)?;
    write_after_space(alloc, out, one.value)?;
    write_numbers(alloc, out, &one.walk)?;
    out.push(b'\n')?;
    Ok(())
}

// Appends numbers, each after a space.
fn write_numbers(alloc: Global, out: &mut Vec<u8>, numbers: &[u32]) -> Result<(), Memory>
    ensures { OnOk result (out.new.items ≡ out.old.items ++ numbers_after numbers.now) }
{
    for number in numbers {
        write_after_space(alloc, out, *number)?;
    }
    Ok(())
}

// Appends a number after a space.
fn write_after_space(alloc: Global, out: &mut Vec<u8>, number: u32) -> Result<(), Memory>
    ensures { OnOk result (out.new.items ≡ out.old.items ++ number_after_space number) }
{
    out.push(b' ')?;
    write_number(alloc, out, number)
}

// Appends a number.
fn write_number(alloc: Global, out: &mut Vec<u8>, number: u32) -> Result<(), Memory>
    ensures { OnOk result (out.new.items ≡ out.old.items ++ decimal number) }
{
    out.extend_from_slice(number.to_string(alloc)?.as_bytes())?;
    Ok(())
}
