//! The levels of a program's nodes.

ghost use Rattle.std.specs.Prelude.{ℕ, ◌≡◌, ◌≤◌, ◌<◌, ◌^◌, IfOk, None, Some, slice_index_or as get_or};
ghost use Rattle.fc_nodes.specs.Program.{unfolding_of};
ghost use Rattle.interval_facts.specs.Ranges.{AreRangesOf};
ghost use Rattle.fragment_check.specs.Verdicts.{levels_of, main_level};

use crate::scopes::{Context, Position, Scope};
use crate::walk::walk;
use fc_nodes::Unfolded;
use fc_values::Memory;
use interval_facts::Ranges;
use std::alloc::Global;

/// The levels of all nodes, and that of `main`.
pub(crate) fn main_levels(
    alloc: Global,
    program: &Unfolded,
    ranges: &Ranges,
    devices: u32,
) -> Result<(Vec<Option<u64>>, u64), Memory>
    requires ranges { AreRangesOf (unfolding_of program.now) ranges.now }
    requires devices { 1 ≤ devices }
    ensures levels { IfOk result (λ f. f.0.items ≡ levels_of (unfolding_of program.now) devices) }
    ensures main { IfOk result (λ f. f.1 ≡ main_level (unfolding_of program.now) devices) }
    ensures few { IfOk result (λ f. f.1 < 2 ^ 33) }
    ensures each { IfOk result (λ f. (place level : ℕ) → get_or f.0.items place None ≡ Some level → level < 2 ^ 33) }
{
    let context = Context {
        program,
        ranges,
        devices,
    };
    let nowhere = Scope::Empty;
    let position = Position {
        branch: 1,
        own: program.size(),
        scope: &nowhere,
    };
    let mut levels = Vec::with_capacity(alloc, program.size() as usize)?;
    let found = walk(&context, 0, &position, &mut levels)?;
    Ok((levels, found.level))
}
