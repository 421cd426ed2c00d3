//! Whether a program stabilises, and why not.

/// Why a node is outside the self-stabilising fragment.
#[derive(Clone, Copy, Debug, PartialEq, Eq)]
pub enum Reason {
    Converging,
    Nested,
    Unguarded,
    Potential,
    NoGrowth,
    GrowthZero,
    LeadAtCeiling,
    RiseZero,
}

/// After how many rounds at most a program is stable, or the first place at which it is outside the fragment.
#[derive(Clone, Copy, Debug, PartialEq, Eq)]
pub enum Verdict {
    Yes(u64),
    No { place: u32, reason: Reason },
}
