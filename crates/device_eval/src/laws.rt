//! Laws of the definitions.

ghost use Rattle.std.specs.Prelude.{ℕ, Bool};
ghost use Rattle.fc_values.specs.Types.{ValueType};
ghost use Rattle.fc_values.specs.Trees.{Copy};
ghost use Rattle.fc_nodes.specs.Terms.{Term, Terms};
ghost use Rattle.fc_nodes.specs.Program.{Program, unfolding_of, IsProgram};
ghost use Rattle.alignment.specs.Environments.{Env};
ghost use Rattle.alignment.specs.Slots.{FlatEnv};
ghost use Rattle.value_trees.specs.Copies.{FitsCopy};
ghost use Rattle.alignment.specs.Scopes.{Vars};
ghost use Rattle.device_eval.specs.Evaluation.{Situation};
ghost use Rattle.device_eval.specs.Copies.{HasOneExport};
ghost use Rattle.device_eval.specs.Conditions.{NodeIn, MayEvaluate, HasOutcome, main_in};
ghost use Rattle.device_eval.specs.Laws.{RulesAgree, RulesAgreeOnAll, HasOneAtMost, BranchStands, NbrStands};
ghost use Rattle.device_eval.specs.Laws.{RepStands, ShareStands, RestrictStands};

/// Evaluation is never stuck: a copy that fits a program has exactly one export, and it is well-typed.
pub fn one_export()
    ensures { (p : Program) (s : Copy) → IsProgram p → FitsCopy (unfolding_of p) s → HasOneExport (unfolding_of p) s }
{}

/// The rules of evaluation and its function agree at every node, for all binders and environments. So a node has at
/// most one value and one tree.
pub fn rules_agree()
    ensures node { (S : Situation) (p : ℕ) (t : Term) (vars : Vars) (env : Env) → RulesAgree S p t vars env }
    ensures nodes { (S : Situation) (p i : ℕ) (xs : Terms) (vars : Vars) (env : Env)
        → RulesAgreeOnAll S p i xs vars env }
    ensures one { (S : Situation) (p : ℕ) (t : Term) (vars : Vars) (env : Env) → HasOneAtMost S p t vars env }
{}

/// Progress at every node: under its conditions a node has exactly one value and one tree, which fit it, and a field is
/// over exactly the device and the aligned neighbours. The conditions hold of `main` in a copy that fits.
pub fn nodes_have_outcomes()
    ensures node { (n : NodeIn) → MayEvaluate n → HasOutcome n }
    ensures main { (p : Program) (s : Copy) → IsProgram p → FitsCopy (unfolding_of p) s
        → MayEvaluate (main_in (unfolding_of p) s) }
{}

/// What code reads of slots is what the rules read of the trees that the slots stand for.
pub fn slots_stand_for_trees()
    ensures branch { (t : ValueType) (c a b : Term) (k : ℕ) (truth : Bool) (env : FlatEnv)
        → BranchStands t c a b k truth env }
    ensures nbr { (t : ValueType) (a : Term) (k : ℕ) (env : FlatEnv) → NbrStands t a k env }
    ensures rep { (t : ValueType) (a b : Term) (k : ℕ) (env : FlatEnv) → RepStands t a b k env }
    ensures share { (t : ValueType) (a b : Term) (k : ℕ) (env : FlatEnv) → ShareStands t a b k env }
    ensures restricted { (t : Term) (k : ℕ) (env : FlatEnv) → RestrictStands t k env }
{}
