//! Laws of the definitions.

ghost use Rattle.fc_check.specs.Promises.{CheckOwes};

use command_frame::inputs_are_read;
use converge_laws::yes_stabilises;
use settle_rounds::{one_start_within, settle_times_hold, start_times_hold, starts_hold_within};

/// `check` has one answer to each input. Where its status says yes, the verdict is a yes and is kept; the settle rounds
/// and the settle time that `check --settle` writes lead every device on the scene's network to the values that stand
/// beside them, also of a network that is open, from every good start; those that `check --settle --from-table` writes
/// do so from the start of the scene.
pub fn check_owes()
    ensures { CheckOwes }
{
    inputs_are_read();
    yes_stabilises();
    one_start_within();
    starts_hold_within();
    settle_times_hold();
    start_times_hold();
}
