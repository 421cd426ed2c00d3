//! Laws of the definitions.

ghost use Rattle.rise.specs.Laws.{SolvesWithoutRise, SolvesWithoutRiseInScope, StepInAStage, StageBegins, StageIsReached, StageByTurns};

/// A value of a `rep` solves its body `rise(t, x, s)` exactly where it solves `t` and `s` has a solution, if `s` is at
/// least 1: then the equation of `rise` says that the value is that of `t`. This holds where each solution of `s` is in
/// a range from 1 on (`range`), and where the maps of the binders in scope lie in the ranges of their variables and the
/// range of `s` begins at 1 or more (`scope`).
pub fn rise_is_no_limit()
    ensures range { SolvesWithoutRise }
    ensures scope { SolvesWithoutRiseInScope }
{}

/// One firing's step in a stage of limited rise (`step`); a stage begins where the one before ends (`begins`) and is
/// reached by as many firings as `turns` says (`reached`, and of a run of firings `stage`).
pub fn rise_takes_turns()
    ensures step { StepInAStage }
    ensures begins { StageBegins }
    ensures reached { StageIsReached }
    ensures stage { StageByTurns }
{}
