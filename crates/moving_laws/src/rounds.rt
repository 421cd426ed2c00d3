//! One round raises the level of a core by one, whatever is edited.

ghost use Rattle.fc_nodes.specs.Program.{Program, unfolding_of, IsProgram};
ghost use Rattle.converge_laws.specs.StartLevels.{MaybeLevel};
ghost use Rattle.net_moves.specs.Moves.{Allowed};
ghost use Rattle.moving_laws.specs.MovingLevels.{LiftsMoving, MovesByRounds};

use firing_core::{faultless_steps, runs_cut, steps_keep_good};

/// Levels of the exports, or missing exports, of a program's firings on networks that are allowed: each implies the
/// one below it, a device that may be away may have no export at each, and a copy from exports at a level has its
/// export one level up.
pub trait ChangingLevels {
    ghost program: { Program };

    ghost allowed: { Allowed };

    ghost level: { MaybeLevel };

    ghost is_program: { IsProgram program };

    ghost lifts: { LiftsMoving level (unfolding_of program) allowed };
}

/// Each round of a log that stays on allowed networks raises the level by one: a device that is there all the time
/// begins and ends a firing, and one that isn't there at some moment has neither an export nor a copy in flight then.
pub fn rounds_raise_changing_levels<L: ChangingLevels>()
    ensures { MovesByRounds L.level (unfolding_of L.program) L.allowed }
{
    steps_keep_good();
    faultless_steps();
    runs_cut();
}
