//! Laws of rounds.

ghost use Rattle.round_count.specs.Laws.{GreatestFollows, GreatestStays, RoundsCome, RoundsFollow, RoundsStay};
ghost use Rattle.round_count.specs.Laws.{SomeGreatest};

use firing_core::{faultless_steps, runs_cut, steps_keep_good};

/// From each good core, and for each number, there is a log without an edit that has so many rounds: the devices may
/// always fire, one after another.
pub fn rounds_come()
    ensures { RoundsCome }
{
    steps_keep_good();
    faultless_steps();
    runs_cut();
}

/// Entries behind a log that are no edits, and entries in front of it, take no round away; nor does the greatest number
/// of rounds in the part after the last edit fall.
pub fn rounds_grow()
    ensures behind { RoundsStay }
    ensures front { RoundsFollow }
    ensures greatest_behind { GreatestStays }
    ensures greatest_front { GreatestFollows }
{}

/// Where there are devices, each log has a greatest number of rounds.
pub fn some_greatest()
    ensures { SomeGreatest }
{}
