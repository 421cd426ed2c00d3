//! Laws of the definitions.

ghost use Rattle.walk_form.specs.Laws.{FormsHaveCosts, OneCosts, SolutionsAreLeast};

use converge_laws::{solutions_are_one, yes_analyses, yes_stabilises};
use fc_values::{fields_are_read, least_and_greatest};
use fragment_check::patterns_have_shapes;
use topology::neighbours_are_mutual;
use walks::fixed_values_are_least;

/// Where the verdict is a yes, a field that solves a program of the walk form has at each device the least of the costs
/// of all walks that end there.
pub fn solutions_are_least()
    ensures { SolutionsAreLeast }
{
    yes_analyses();
    yes_stabilises();
    solutions_are_one();
    fields_are_read();
    least_and_greatest();
    neighbours_are_mutual();
    fixed_values_are_least();
}

/// Where the verdict is a yes, a program of the walk form has costs.
pub fn forms_have_costs()
    ensures { FormsHaveCosts }
{
    yes_analyses();
    yes_stabilises();
    solutions_are_one();
    neighbours_are_mutual();
}

/// It has no other costs.
pub fn one_costs()
    ensures { OneCosts }
{}
