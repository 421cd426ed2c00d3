//! Laws of walks.

ghost use Rattle.walks.specs.Laws.{ClaimsAreLeast, TracedClaimsHold, OneLeastCost, OneBestWalk, BestWalksCostLeast};
ghost use Rattle.walks.specs.Laws.{OneTrace, SomeTrace, FixedValuesAreLeast};

/// Where a claim holds each value is the least cost of its device.
pub fn claims_are_least()
    ensures { ClaimsAreLeast }
{}

/// Least costs with best walks are a claim that holds.
pub fn traced_claims_hold()
    ensures { TracedClaimsHold }
{}

/// Each device has one least cost and one best walk, which has that cost.
pub fn walks_are_one()
    ensures least { OneLeastCost }
    ensures best { OneBestWalk }
    ensures costs { BestWalksCostLeast }
    ensures trace { OneTrace }
    ensures some { SomeTrace }
{}

/// Values are least costs where each is the lesser of its device's start and the least sum of a neighbour's value and
/// the step from there.
pub fn fixed_values_are_least()
    ensures { FixedValuesAreLeast }
{}
