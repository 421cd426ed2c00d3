//! Laws of the definitions.

ghost use Rattle.fc_stable.specs.Promises.{StableOwes};

use command_frame::inputs_are_read;
use converge_laws::yes_stabilises;

/// `stable` has one answer to each input. Where its status says yes, the verdict is a yes and is kept, and the one field
/// is written.
pub fn stable_owes()
    ensures { StableOwes }
{
    inputs_are_read();
    yes_stabilises();
}
