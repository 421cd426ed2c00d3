//! Bounds of values: which values are possible, and what builtins make of them.
#![tactic(auto)]

mod apply;
mod bounds;
mod hoods;
mod laws;
mod locals;
mod orders;
mod pointwise;

pub use apply::bound_of_builtin;
pub use bounds::{
    Bound, BoundEntry, BoundRef, FieldBound, LocalBound, anything, copy_bound, either, exactly,
    is_known, lend, same_bound, value_left,
};
pub use laws::builtins_lie;
pub use orders::{greater_bound, high_order, lesser_bound, low_order, may_equal, must_equal};
