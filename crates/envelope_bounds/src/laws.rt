//! What envelopes allow, and what a yes promises on each network within one.

ghost use Rattle.envelope_bounds.specs.Laws.{EditsStayWithin, EnvelopesAreExact, LookupsAgree, RoundsAreWithin};
ghost use Rattle.envelope_bounds.specs.Yes.{VerdictsRise, YesHoldsWithin};

use converge_laws::yes_stabilises;

/// A log whose edits are all such as the envelope allows stays within it.
pub fn edits_stay_within()
    ensures { EditsStayWithin }
{}

/// A network lies within an envelope exactly where look-ups of devices and pairs say so.
pub fn lookups_agree()
    ensures { LookupsAgree }
{}

/// The envelope of one network has this network within it alone. A log without an edit stays in it and has its rounds.
pub fn envelopes_are_exact()
    ensures { EnvelopesAreExact }
{}

/// Rounds in which each device fires that is there all the time are those in which each device of the envelope fires or
/// isn't there at some moment.
pub fn rounds_are_within()
    ensures { RoundsAreWithin }
{}

/// A yes for some devices is one for fewer devices, with no more rounds.
pub fn verdicts_rise()
    ensures { VerdictsRise }
{}

/// So a yes for as many devices as an envelope has, with its rounds, holds on each network within the envelope, once it
/// stands still.
pub fn yes_holds_within()
    ensures { YesHoldsWithin }
{
    yes_stabilises();
    verdicts_rise();
}
