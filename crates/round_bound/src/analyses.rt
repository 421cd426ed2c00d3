//! A program that is analysed: its ranges, its patterns, and from them its verdict and its levels.

use crate::levels::main_levels;
use fc_nodes::{Reason, Unfolded, Verdict};
use fc_values::Memory;
use fragment_check::{Pattern, PatternFault, patterns};
use interval_facts::{Ranges, ranges};
use std::alloc::Global;
use std::marker::Model;

/// A program that is analysed once: its ranges, and the patterns of all `rep` and `share` outside first values, or the
/// first of them that has none, with its reason.
#[derive(Drop)]
pub struct Analysis<'a> {
    program: &'a Unfolded,
    ranges: Ranges,
    patterns: Result<Vec<(u32, Pattern)>, (u32, Reason)>,
}

impl<'a> Model for Analysis<'a> {
    ghost use Rattle.std.specs.Prelude.{◌≡◌, IfErr, IfOk, OnOk, Some};
    ghost use Rattle.std.specs.Coded.{codes};
    ghost use Rattle.fc_values.specs.contracts.values.Local as local;
    ghost use Rattle.fc_values.specs.contracts.types.LocalTy as local_ty;
    ghost use Rattle.fc_nodes.specs.Program.{Program, unfolding_of};
    ghost use Rattle.interval_facts.specs.Ranges.{AreRangesOf};
    ghost use Rattle.fragment_check.specs.Patterns.{first_refused};
    ghost use Rattle.fragment_check.specs.Verdicts.{InFragment, judged_of, patterns_of};

    ghost Value = { Program };

    ghost coded = { Prim.hlevel (codes, local.the_row.coded, local_ty.the_row.coded) };

    ghost view = { λ a. a.program.now };

    ghost invariant = { λ a. AreRangesOf (unfolding_of a.program.now) a.ranges
        × IfOk a.patterns (λ found. found.items ≡ patterns_of (unfolding_of a.program.now))
        × OnOk a.patterns (InFragment (unfolding_of a.program.now))
        × IfErr a.patterns (λ refused. first_refused (judged_of (unfolding_of a.program.now)) ≡ Some refused) };
}

impl<'a> Analysis<'a> {
    ghost use Rattle.std.specs.Prelude.{ℕ, ◌≡◌, ◌≤◌, ◌<◌, ◌^◌, IfErr, IfOk, OnOk, None, Some, slice_index_or as get_or};
    ghost use Rattle.fc_nodes.specs.declared.verdicts.Verdict.TheVariants as verdict;
    ghost use Rattle.fc_nodes.specs.Program.{unfolding_of};
    ghost use Rattle.interval_facts.specs.Ranges.{AreRangesOf};
    ghost use Rattle.fragment_check.specs.Patterns.{first_refused};
    ghost use Rattle.fragment_check.specs.Verdicts.{InFragment, judged_of, levels_of, patterns_of, verdict_of};

    /// The analysis of a program.
    pub fn new(alloc: Global, program: &'a Unfolded) -> Result<Self, Memory>
        ensures { IfOk result (λ a. a ≡ program.now) }
    {
        let ranges = ranges(alloc, program)?;
        let patterns = match patterns(alloc, program, &ranges) {
            Ok(found) => Ok(found),
            Err(PatternFault::Refused { place, reason }) => Err((place, reason)),
            Err(PatternFault::Memory) => return Err(Memory),
        };
        Ok(Analysis {
            program,
            ranges,
            patterns,
        })
    }

    /// The program that is analysed.
    pub fn program(&self) -> &'a Unfolded
        ensures { result.now ≡ self.now }
    {
        self.program
    }

    /// The ranges of the program's nodes.
    pub fn ranges(&self) -> &Ranges
        ensures { AreRangesOf (unfolding_of self.now) result.now }
    {
        &self.ranges
    }

    /// All `rep` and `share` outside first values, rising, each with its pattern; or the first in preorder without one,
    /// with its reason.
    pub fn patterns(&self) -> Result<&[(u32, Pattern)], (u32, Reason)>
        ensures found { IfOk result (λ found. found.now ≡ patterns_of (unfolding_of self.now)) }
        ensures fragment { OnOk result (InFragment (unfolding_of self.now)) }
        ensures refused { IfErr result (λ refused. first_refused (judged_of (unfolding_of self.now)) ≡ Some refused) }
    {
        match &self.patterns {
            Ok(found) => Ok(found.as_slice()),
            Err(refused) => Err(*refused),
        }
    }

    /// The verdict for a number of devices: yes, with the level of `main`, where each `rep` and `share` outside first
    /// values has a pattern; else no, with the first place that has none, and its reason.
    pub fn verdict(&self, alloc: Global, devices: u32) -> Result<Verdict, Memory>
        requires { 1 ≤ devices }
        ensures verdict { IfOk result (λ v. v ≡ verdict_of (unfolding_of self.now) devices) }
        ensures few { IfOk result (λ v. (k : ℕ) → v ≡ verdict.Yes k → k < 2 ^ 33) }
    {
        let (verdict, _levels) = self.verdict_with_levels(alloc, devices)?;
        Ok(verdict)
    }

    /// The verdict for a number of devices, and with a yes the levels of all nodes by their places.
    pub fn verdict_with_levels(
        &self,
        alloc: Global,
        devices: u32,
    ) -> Result<(Verdict, Vec<Option<u64>>), Memory>
        requires { 1 ≤ devices }
        ensures verdict { IfOk result (λ r. r.0 ≡ verdict_of (unfolding_of self.now) devices) }
        ensures few { IfOk result (λ r. (k : ℕ) → r.0 ≡ verdict.Yes k → k < 2 ^ 33) }
        ensures levels { IfOk result (λ r. (k : ℕ) → r.0 ≡ verdict.Yes k
            → r.1.items ≡ levels_of (unfolding_of self.now) devices) }
        ensures each { IfOk result (λ r. (k place level : ℕ) → r.0 ≡ verdict.Yes k
            → get_or r.1.items place None ≡ Some level → level < 2 ^ 33) }
    {
        match &self.patterns {
            Ok(_) => {
                let (levels, rounds) = main_levels(alloc, self.program, &self.ranges, devices)?;
                Ok((Verdict::Yes(rounds), levels))
            }
            Err((place, reason)) => {
                let verdict = Verdict::No {
                    place: *place,
                    reason: *reason,
                };
                Ok((verdict, Vec::new(alloc)))
            }
        }
    }
}
