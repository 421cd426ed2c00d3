//! One round raises the level of a core by one.

ghost use Rattle.std.specs.Prelude.{◌≡◌};
ghost use Rattle.fc_nodes.specs.Program.{Program, unfolding_of, IsProgram};
ghost use Rattle.topology.specs.Networks.{Network, IsNetwork};
ghost use Rattle.converge_laws.specs.CoreLevels.{ExportLevel, Raises, LevelsOfSteps, LevelsBegin, LevelsOfRounds};

use firing_core::{faultless_steps, runs_cut, steps_keep_good};

/// Levels of the exports of a program's firings on a network: each implies the one below it, a well-typed export is at
/// 0, and a copy from exports at a level has its export one level up.
pub trait Levels {
    ghost program: { Program };

    ghost network: { Network };

    ghost level: { ExportLevel };

    ghost is_program: { IsProgram program };

    ghost is_network: { IsNetwork network };

    ghost declared: { network.declared ≡ program.declared };

    ghost raises: { Raises level (unfolding_of program) network };
}

/// A good core is at level 0. A step without an edit keeps the level, whatever tables at the level the devices see, and
/// each round raises it by one: a device's begin in the round comes after the end of any older firing of it, so that
/// each older copy is published by then.
pub fn rounds_raise_levels<L: Levels>()
    ensures start { LevelsBegin L.level (unfolding_of L.program) L.network }
    ensures step { LevelsOfSteps L.level (unfolding_of L.program) L.network }
    ensures rounds { LevelsOfRounds L.level (unfolding_of L.program) L.network }
{
    steps_keep_good();
    faultless_steps();
    runs_cut();
}
