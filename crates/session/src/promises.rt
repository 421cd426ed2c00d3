//! What a yes promises of a script run.

ghost use Rattle.session.specs.Promises.{ScriptsKeepYes};

use crate::laws::lines_cut;
use converge_laws::yes_stabilises;
use firing_core::{runs_cut, steps_keep_good};
use round_count::rounds_grow;

/// A script run from a good core may be cut before any of its lines. Where the last verdict that was written until then
/// is a yes for `k` rounds, the program stabilises within them on the network that the lines have made. Where the parts
/// since the last edit have `k` rounds, each device holds its value of the one field that solves the program there, and
/// a line `show` that comes next writes exactly the text of this field.
pub fn scripts_keep_yes()
    ensures { ScriptsKeepYes }
{
    lines_cut();
    steps_keep_good();
    runs_cut();
    rounds_grow();
    yes_stabilises();
}
