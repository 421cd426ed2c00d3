//! The law of `check --settle --changes`.

ghost use Rattle.fc_changes.specs.Promises.{ChangesOwe};

use change_envelopes::{ends_stay, lines_may_happen, one_envelope, scenes_lie, some_envelope};
use command_frame::inputs_are_read;
use envelope_bounds::{edits_stay_within, lookups_agree, yes_holds_within};
use last_bounds::{one_list, some_list};
use settle_rounds::{
    lines_hold, lines_hold_anyhow, one_start_within, starts_hold_within, starts_stay,
};

/// `check --settle --changes` has one answer to each input. Whatever its lines allow stays within their envelope; and
/// each line of the answer holds there, from every good core, or with `--from-table` from that of the scene.
pub fn changes_owe()
    ensures { ChangesOwe }
{
    inputs_are_read();
    some_envelope();
    one_envelope();
    scenes_lie();
    ends_stay();
    lines_may_happen();
    lookups_agree();
    edits_stay_within();
    yes_holds_within();
    starts_hold_within();
    one_start_within();
    some_list();
    one_list();
    lines_hold();
    lines_hold_anyhow();
    starts_stay();
}
