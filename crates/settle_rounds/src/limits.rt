//! How many rounds of bounds are looked at.

ghost use Rattle.std.specs.Prelude.{◌≡◌, ◌≤◌};
ghost use Rattle.settle_rounds.specs.SettleTimes.{settle_cap};
ghost use Rattle.settle_rounds.specs.Starts.{growing_cap};

use fc_nodes::Verdict;

/// The most firings of bounds with which settle rounds are looked for.
pub const MOST_BOUND_FIRINGS: u32 = 1_000_000;

/// The most rounds that are looked at where nothing else limits them, for so many devices.
pub fn growing_cap(devices: usize) -> u32
    requires { 1 ≤ devices }
    ensures value { result ≡ growing_cap devices }
    ensures some { devices ≤ MOST_BOUND_FIRINGS → 1 ≤ result }
{
    let most = u64::from(MOST_BOUND_FIRINGS) / devices as u64;
    most as u32
}

/// The greatest settle round that is looked for, for a network of so many devices.
pub fn settle_cap(verdict: Verdict, devices: usize) -> u32
    requires { 1 ≤ devices }
    ensures { result ≡ settle_cap verdict devices }
{
    let most = growing_cap(devices);
    match verdict {
        Verdict::Yes(rounds) => u64::from(most).min(rounds) as u32,
        Verdict::No { .. } => most,
    }
}
