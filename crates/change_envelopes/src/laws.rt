//! What the envelope of lines is for.

ghost use Rattle.change_envelopes.specs.Laws.{EndsStay, LinesMayHappen, OneEnvelope, ScenesLie, SomeEnvelope};

/// The scene lies within the envelope of the scene and lines.
pub fn scenes_lie()
    ensures { ScenesLie }
{}

/// Links that are always there in that envelope are between devices that are always there.
pub fn ends_stay()
    ensures { EndsStay }
{}

/// Each edit that a line allows is one that the envelope allows, if no line is refused.
pub fn lines_may_happen()
    ensures { LinesMayHappen }
{}

/// A scene and lines have at most one envelope.
pub fn one_envelope()
    ensures { OneEnvelope }
{}

/// They have one, if no line is refused.
pub fn some_envelope()
    ensures { SomeEnvelope }
{}
