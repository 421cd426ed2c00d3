//! Laws of driven logs.

ghost use Rattle.mail_drive.specs.Laws.{DrivenLeads, RoundsCover, DrivenRounds, NoMoreRounds};

use firing_core::{faultless_steps, steps_keep_good};

/// A driven log leads from every mail core in which no device is in flight and nothing is in transit to one of which
/// this is so again.
pub fn driven_logs_lead()
    ensures { DrivenLeads }
{
    steps_keep_good();
    faultless_steps();
}

/// Where nothing is in transit, each driven round covers and leaves nothing in transit, `k` driven rounds are `k`
/// rounds, and where the network has a link they are no more.
pub fn driven_rounds_cover()
    ensures round { RoundsCover }
    ensures rounds { DrivenRounds }
    ensures no_more { NoMoreRounds }
{}
