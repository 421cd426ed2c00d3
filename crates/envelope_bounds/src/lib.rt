//! What envelopes allow, and what a yes promises on each network within one.
#![tactic(auto)]

mod laws;

pub use laws::{
    edits_stay_within, envelopes_are_exact, lookups_agree, rounds_are_within, verdicts_rise,
    yes_holds_within,
};
