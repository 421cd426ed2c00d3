//! What rounds of bounds promise.

ghost use Rattle.settle_rounds.specs.Lines.{LinesHold, LinesHoldAnyhow, StartsStay};
ghost use Rattle.settle_rounds.specs.Mail.{BoundsReachMail};
ghost use Rattle.settle_rounds.specs.Rounds.{BoundsReach};
ghost use Rattle.settle_rounds.specs.SettleTimes.{SettleTimesHold};
ghost use Rattle.settle_rounds.specs.Settling.{RoundsSettle, StillStaysWithin, YesLeaves};
ghost use Rattle.settle_rounds.specs.StartTimes.{StartTimesHold};
ghost use Rattle.settle_rounds.specs.Starts.{BoundsHoldFrom, BoundsReachFrom, YesLeavesFrom};
ghost use Rattle.settle_rounds.specs.Within.{BoundsHoldWithin, BoundsHoldWithinFrom, BoundsReachWithin};
ghost use Rattle.settle_rounds.specs.Within.{FiringsLandWithin, OneStartWithin, StartsHoldWithin, TablesGrowWithin};

use converge_laws::{yes_raises_levels, yes_stabilises};
use export_bounds::exports_hold;
use firing_core::{faultless_steps, runs_cut, steps_keep_good};
use mail_laws::yes_stabilises_mail;

/// A copy that is taken on a network within an envelope, from exports in bounds, evaluates to what lies in the firing
/// of the bounds over the envelope.
pub fn firings_land_within()
    ensures { FiringsLandWithin }
{}

/// From a core that a closed table of bounds holds, the exports after so many rounds lie in the bounds after as many,
/// and after any fewer, whatever changes within the envelope: none ever leaves the table.
pub fn bounds_hold_within_from()
    ensures { BoundsHoldWithinFrom }
{
    steps_keep_good();
    faultless_steps();
    runs_cut();
}

/// The same from every good core, with the bounds from any exports. From the first round on a device that is always
/// there has an export.
pub fn bounds_hold_within()
    ensures { BoundsHoldWithin }
{
    bounds_hold_within_from();
}

/// Where the bounds of a device, counted from a closed table that holds the core, leave one value, each export that it
/// has after so many rounds has this value.
pub fn bounds_reach_within()
    ensures { BoundsReachWithin }
{
    bounds_hold_within_from();
}

/// A good core has a first table. Each table that grows out of one holds the core, and where it is full it is closed.
pub fn tables_grow_within()
    ensures { TablesGrowWithin }
{
    faultless_steps();
    exports_hold();
}

/// A core has at most one table from which its rounds are counted.
pub fn one_start_within()
    ensures { OneStartWithin }
{}

/// Each good core has one, which is closed and holds the core.
pub fn starts_hold_within()
    ensures { StartsHoldWithin }
{
    faultless_steps();
    exports_hold();
}

/// From a core, the bounds after so many rounds hold from then on.
pub fn lines_hold()
    ensures { LinesHold }
{
    bounds_hold_within_from();
    starts_hold_within();
}

/// The same from every good core, with the tables from any exports.
pub fn lines_hold_anyhow()
    ensures { LinesHoldAnyhow }
{
    bounds_hold_within();
}

/// No exported value ever leaves the bounds from which the rounds of a core are counted.
pub fn starts_stay()
    ensures { StartsStay }
{
    bounds_hold_within_from();
    starts_hold_within();
}

/// Once a round over an envelope would change no bound, no later round changes any.
pub fn still_stays_within()
    ensures { StillStaysWithin }
{}

/// On a network that stands still, from a core that a closed table of bounds holds, the exports after so many rounds
/// lie in the bounds after as many, and after any fewer.
pub fn bounds_hold_from()
    ensures { BoundsHoldFrom }
{
    bounds_hold_within_from();
}

/// Where these bounds of a device leave one value after so many rounds, every log without an edit that has so many
/// rounds leads from that core to this value.
pub fn bounds_reach_from()
    ensures { BoundsReachFrom }
{
    bounds_hold_from();
}

/// Where the bounds of a device after so many rounds leave one value, every log without an edit that has so many rounds
/// leads from every good core to this value.
pub fn bounds_reach()
    ensures { BoundsReach }
{
    bounds_reach_from();
}

/// The same over message links, in rounds of mail.
pub fn bounds_reach_mail()
    ensures { BoundsReachMail }
{
    steps_keep_good();
    faultless_steps();
    runs_cut();
}

/// Where the verdict is a yes, the value that is left from a core is that of the one field that solves the program.
pub fn yes_leaves_from()
    ensures { YesLeavesFrom }
{
    faultless_steps();
    yes_raises_levels();
}

/// The same from every good core.
pub fn yes_leaves()
    ensures { YesLeaves }
{
    yes_leaves_from();
}

/// The settle round of a device is the first round after which it is reached.
pub fn rounds_settle()
    ensures { RoundsSettle }
{}

/// What the settle rounds and the settle time of a program on a network promise.
pub fn settle_times_hold()
    ensures { SettleTimesHold }
{
    bounds_reach();
    bounds_reach_mail();
    rounds_settle();
    yes_leaves();
    yes_stabilises();
    yes_stabilises_mail();
}

/// The same of one good core, from its table.
pub fn start_times_hold()
    ensures { StartTimesHold }
{
    starts_hold_within();
    bounds_reach_from();
    rounds_settle();
    yes_leaves_from();
    yes_stabilises();
}
