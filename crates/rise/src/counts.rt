//! The firings and rounds that limited rise takes.

ghost use Rattle.std.specs.Prelude.{◌≡◌, ◌≤◌, ◌+◌, ◌-◌, ◌*◌};
ghost use Rattle.fc_values.specs.declared.limits.TheConstants.{GREATEST};
ghost use Rattle.growth_facts.specs.Turns.{steps_of, turns_of, rounds_of, IsLeastOfTurns};

/// The firings of a stage: the least number of them that makes up the growth, where each one rises by at least `least`.
pub fn turns(growth: u32, least: u32) -> u32
    requires some_growth { 1 ≤ growth }
    requires most_growth { growth ≤ GREATEST }
    requires some_rise { 1 ≤ least }
    requires most_rise { least ≤ GREATEST }
    ensures value { result ≡ turns_of growth least }
    ensures fewest { IsLeastOfTurns growth least result }
{
    (growth + (least - 1)) / least
}

/// The rounds of all stages up to the greatest value, after those of the parts.
pub fn rounds(greatest: u32, growth: u32, least: u32) -> u64
    requires some_growth { 1 ≤ growth }
    requires most_growth { growth ≤ GREATEST }
    requires some_rise { 1 ≤ least }
    requires most_rise { least ≤ GREATEST }
    requires greatest { greatest ≤ GREATEST }
    ensures value { result ≡ rounds_of greatest growth least }
    ensures most { result ≤ 3 * GREATEST }
{
    rounds_by(greatest, growth, turns(growth, least))
}

// The rounds of all stages of `turns` firings each.
fn rounds_by(greatest: u32, growth: u32, turns: u32) -> u64
    requires some_growth { 1 ≤ growth }
    requires some_turns { 1 ≤ turns }
    requires most_turns { turns ≤ GREATEST }
    requires greatest { greatest ≤ GREATEST }
    ensures { result ≡ (turns - 1) + (steps_of greatest growth - 1) * (turns + 1) }
{
    let turns = turns as u64;
    let steps = (greatest / growth) as u64;
    (turns - 1) + steps * (turns + 1)
}
