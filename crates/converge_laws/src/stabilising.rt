//! A program that an analysis finds in the fragment stabilises.

ghost use Rattle.std.specs.Prelude.{ℕ, ◌≡◌, length};
ghost use Rattle.fc_nodes.specs.declared.verdicts.Verdict.TheVariants as verdict;
ghost use Rattle.fc_nodes.specs.Program.{unfolding_of};
ghost use Rattle.topology.specs.Networks.{numbers};
ghost use Rattle.firing_core.specs.Entries.{entries_of};
ghost use Rattle.firing_core.specs.CoreViews.{core_of};
ghost use Rattle.firing_core.specs.Rounds.{after_edit, HasRounds};
ghost use Rattle.fragment_check.specs.Verdicts.{verdict_of};
ghost use Rattle.converge_laws.specs.Laws.{SolutionsAreOne, SolutionsRaiseLevels, AnalysedStabilise};
ghost use Rattle.converge_laws.specs.Stabilising.{Stabilises};
ghost use Rattle.converge_laws.specs.Verdicts.{YesAnalyses, YesRaises, YesStabilises, IsSettled};

use fc_nodes::Unfolded;
use firing_core::{Book, faultless_steps, runs_cut, steps_keep_good};
use fragment_check::patterns_have_shapes;
use topology::Network;

/// One level a round: the levels of exports that agree with a solution, node by node, are `Levels`. A copy from exports
/// at a level has its export one level up, whatever trees stand where the solution's branches don't lead.
pub fn solutions_raise_levels()
    ensures { SolutionsRaiseLevels }
{
    steps_keep_good();
    faultless_steps();
    runs_cut();
}

/// Two maps that solve a term of the fragment, over one set of devices and with the same maps of its binders, are equal
/// there, if one lies in the ranges of the term's nodes.
pub fn solutions_are_one()
    ensures { SolutionsAreOne }
{}

/// Where each `rep` and `share` outside the first values has a pattern, exactly one field solves the program, and from
/// every good core each log without an edit that has as many rounds as the level of `main` leads to its values.
pub fn analysed_programs_stabilise()
    ensures { AnalysedStabilise }
{
    steps_keep_good();
    faultless_steps();
    runs_cut();
}

/// A yes gives the analysis of the program by the definitions: each `rep` and `share` outside the first values has its
/// pattern, and the level of `main` is the number of rounds.
pub fn yes_analyses()
    ensures { YesAnalyses }
{
    patterns_have_shapes();
}

/// The convergence law, of all programs and networks.
pub fn yes_stabilises()
    ensures { YesStabilises }
{
    patterns_have_shapes();
    steps_keep_good();
    faultless_steps();
    runs_cut();
}

/// The convergence law: where the verdict for a program and so many devices as a network with its declarations has is a
/// yes for `k` rounds, exactly one field solves the program there, and from every good core each log without an edit
/// with `k` rounds leads to its values.
pub fn stabilises(program: &Unfolded, net: &Network)
    requires declared { net.now.declared ≡ program.now.declared }
    ensures { (k : ℕ) → verdict_of (unfolding_of program.now) (length net.now.devices) ≡ verdict.Yes k
        → Stabilises (unfolding_of program.now) net.now k }
{
    program.declared();
    net.declared();
    patterns_have_shapes();
    steps_keep_good();
    faultless_steps();
    runs_cut();
}

/// The same step by step, for whatever tables the devices see: levels of exports that firings raise and steps keep, of
/// which the `k`-th has the values of the field.
pub fn yes_raises_levels()
    ensures { YesRaises }
{
    patterns_have_shapes();
    steps_keep_good();
    faultless_steps();
    runs_cut();
}

/// Where the verdict for the network at the end of a book's log is a yes for `k` rounds, and the part of the log after
/// its last edit has them, each device's export has the value of the one field that solves the program on that network.
pub fn settled(book: &Book)
    ensures { (k : ℕ)
        → verdict_of (unfolding_of book.now.program) (length (core_of book.now.core).net.devices) ≡ verdict.Yes k
        → HasRounds (numbers (core_of book.now.core).net.devices) (after_edit (entries_of book.now.log)) k
        → IsSettled (unfolding_of book.now.program) (core_of book.now.core) }
{
    book.program().declared();
    patterns_have_shapes();
    steps_keep_good();
    faultless_steps();
    runs_cut();
}
