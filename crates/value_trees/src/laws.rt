//! Laws of the definitions.

ghost use Rattle.std.specs.Prelude.{◌≡◌, List, map};
ghost use Rattle.fc_values.specs.Values.{LocalValue};
ghost use Rattle.fc_nodes.specs.Program.{Unfolding};
ghost use Rattle.value_trees.specs.KeptExports.{ListsHaveExports};
ghost use Rattle.value_trees.specs.KeptItems.{misfit_among, plain_item};
ghost use Rattle.value_trees.specs.KeptReads.{misfit_of};

/// For each value of the type of `main` and each list without a misfit there is an export that has both.
pub fn lists_have_exports()
    ensures { ListsHaveExports }
{}

/// Items that name no place have the same misfit as their values.
pub fn plain_lists_misfit_as_values()
    ensures { (U : Unfolding) (vs : List LocalValue) → misfit_among U (map plain_item vs) ≡ misfit_of U vs }
{}
