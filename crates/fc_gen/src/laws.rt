//! Laws of the definitions.

ghost use Rattle.fc_gen.specs.Promises.{GenOwes};

use converge_laws::yes_stabilises;
use firing_core::steps_keep_good;
use scenarios::{rings_are_networks, rings_are_typed, rings_stabilise};
use session::{one_script_run, some_script_run};
use unfold::programs_unfold;

/// `gen` has one answer to each scenario where the logs agree, and each device has the value of the one field that
/// solves the program.
pub fn gen_owes()
    ensures { GenOwes }
{
    rings_are_typed();
    rings_are_networks();
    rings_stabilise();
    programs_unfold();
    yes_stabilises();
    steps_keep_good();
    one_script_run();
    some_script_run();
}
