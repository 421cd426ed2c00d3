//! Laws of the definitions.

ghost use Rattle.fc_trace.specs.Promises.{TraceOwes};

use command_frame::inputs_are_read;
use converge_laws::yes_stabilises;
use walk_form::{forms_have_costs, one_costs, solutions_are_least};
use walks::walks_are_one;

/// `trace` has one answer to each input. Where its status says yes, the verdict is a yes and is kept, and the least
/// costs, which are the values of the one field, are written with the best walks.
pub fn trace_owes()
    ensures { TraceOwes }
{
    inputs_are_read();
    yes_stabilises();
    forms_have_costs();
    one_costs();
    solutions_are_least();
    walks_are_one();
}
