//! Laws of the definitions.

ghost use Rattle.firing_core.specs.Laws.{StepsKeepGood, RunsKeepGood, StepsKeepNetworks, PlainRunsKeepNet};
ghost use Rattle.firing_core.specs.Laws.{FaultlessStep, StepsAgree, RunsAgree, CopiesFit};
ghost use Rattle.firing_core.specs.Laws.{LogsLeadToOne, FlightsStay, RunsCut, RunsCutAtEdit};

/// Steps keep a core good: its network is one, its exports are well-typed, and its copies in flight fit. Without an
/// edit the network stays.
pub fn steps_keep_good()
    ensures step { StepsKeepGood }
    ensures run { RunsKeepGood }
    ensures net { StepsKeepNetworks }
    ensures plain { PlainRunsKeepNet }
{}

/// An entry that fits has a step from a good core exactly where it has no fault, and the copy that a begin takes fits.
pub fn faultless_steps()
    ensures step { FaultlessStep }
    ensures copy { CopiesFit }
{}

/// From a good core, steps of entries that fit agree as a relation and as a function, and so do runs and replays.
pub fn steps_agree()
    ensures step { StepsAgree }
    ensures run { RunsAgree }
{}

/// A log leads from a good core to one core. Where a device begins at a place of a log and doesn't end after it, the
/// copy with which it flies is the one that was taken at that place.
pub fn logs_decide()
    ensures one { LogsLeadToOne }
    ensures flight { FlightsStay }
{}

/// Runs can be cut and joined anywhere, and so after the last edit of their log.
pub fn runs_cut()
    ensures cut { RunsCut }
    ensures edit { RunsCutAtEdit }
{}
