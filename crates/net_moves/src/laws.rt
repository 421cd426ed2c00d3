//! Laws of the definitions.

ghost use Rattle.net_moves.specs.Laws.{PlainRoundsAre, RunsMove};

/// A log leads to the network that its entries alone tell of.
pub fn runs_move()
    ensures { RunsMove }
{}

/// The rounds of a log without an edit are those in which each device fires that is there all the time.
pub fn plain_rounds_are()
    ensures { PlainRoundsAre }
{}
