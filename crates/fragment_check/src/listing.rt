//! The patterns of a program.

ghost use Rattle.std.specs.Prelude.{◌≡◌, IfOk, OnOk, IfErr};
ghost use Rattle.fc_nodes.specs.Places.{StandsAt};
ghost use Rattle.fragment_check.specs.Facts.{InRow};
ghost use Rattle.fc_nodes.specs.Program.{unfolding_of};
ghost use Rattle.interval_facts.specs.Ranges.{AreRangesOf};
ghost use Rattle.fragment_check.specs.Verdicts.{judged_of, InFragment, patterns_of};
ghost use Rattle.fragment_check.specs.Listing.{judged_at, judged_at_all, Finds, Refuses};

use crate::faults::PatternFault;
use crate::judging::pattern;
use crate::kinds::Pattern;
use fc_nodes::{Unfolded, is_evolving};
use interval_facts::Ranges;
use std::alloc::Global;

/// All `rep` and `share` outside first values, rising, each with its pattern; or the first in preorder without one.
pub fn patterns(
    alloc: Global,
    program: &Unfolded,
    ranges: &Ranges,
) -> Result<Vec<(u32, Pattern)>, PatternFault>
    requires { AreRangesOf (unfolding_of program.now) ranges.now }
    ensures found { IfOk result (λ found. found.items ≡ patterns_of (unfolding_of program.now)) }
    ensures fragment { OnOk result (InFragment (unfolding_of program.now)) }
    ensures refused { IfErr result (Refuses (judged_of (unfolding_of program.now))) }
{
    let mut found = Vec::with_capacity(alloc, program.size() as usize)?;
    judge(program, ranges, 0, &mut found)?;
    Ok(found)
}

// Adds the patterns in the term at a place.
#[cycle(judge)]
fn judge(
    program: &Unfolded,
    ranges: &Ranges,
    place: u32,
    found: &mut Vec<(u32, Pattern)>,
) -> Result<(), PatternFault>
    requires ranges { AreRangesOf (unfolding_of program.now) ranges.now }
    requires stands { StandsAt program.now.nodes place }
    ensures found { OnOk result (Finds (judged_at program.now place) found.old.items found.new.items) }
    ensures refused { IfErr result (Refuses (judged_at program.now place)) }
{
    let node = program.node(place);
    if is_evolving(node) {
        match pattern(program, ranges, place) {
            Ok(pattern) => found.push((place, pattern))?,
            Err(reason) => return Err(PatternFault::Refused { place, reason }),
        }
        return judge(program, ranges, node.kids[1], found);
    }
    judge_all(program, ranges, node.kids.as_slice(), place, found)
}

// Adds the patterns in terms one after another.
#[cycle(judge)]
fn judge_all(
    program: &Unfolded,
    ranges: &Ranges,
    kids: &[u32],
    place: u32,
    found: &mut Vec<(u32, Pattern)>,
) -> Result<(), PatternFault>
    requires ranges { AreRangesOf (unfolding_of program.now) ranges.now }
    requires row { InRow program.now.nodes place kids.now }
    ensures found { OnOk result (Finds (judged_at_all program.now kids.now) found.old.items found.new.items) }
    ensures refused { IfErr result (Refuses (judged_at_all program.now kids.now)) }
{
    let Some((first, rest)) = kids.split_first() else {
        return Ok(());
    };
    judge(program, ranges, *first, found)?;
    judge_all(program, ranges, rest, *first, found)
}
