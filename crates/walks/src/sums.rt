//! Sums that are stopped at a ceiling.

ghost use Rattle.std.specs.Prelude.{◌≡◌, ◌+◌, min};

/// The sum of a value and a cost, stopped at a ceiling.
pub(crate) fn stopped(value: u32, cost: u32, ceiling: u32) -> u32
    ensures { result ≡ min (value + cost) ceiling }
{
    let sum = value.saturating_add(cost);
    if sum < ceiling { sum } else { ceiling }
}
