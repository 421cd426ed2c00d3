//! Rounds of bounds: what each device may hold after each round, while the network changes within an envelope, and from
//! which round on it holds one value where the network stands still.
#![tactic(auto)]

mod laws;
mod limits;
mod settling;
mod starts;

pub use laws::{
    bounds_hold_from, bounds_hold_within, bounds_hold_within_from, bounds_reach, bounds_reach_from,
    bounds_reach_mail, bounds_reach_within, firings_land_within, lines_hold, lines_hold_anyhow,
    one_start_within, rounds_settle, settle_times_hold, start_times_hold, starts_hold_within,
    starts_stay, still_stays_within, tables_grow_within, yes_leaves, yes_leaves_from,
};
pub use limits::{MOST_BOUND_FIRINGS, growing_cap, settle_cap};
pub use settling::{Settled, any_bounds, settle, settle_time};
pub use starts::{settle_from, start_bounds};
