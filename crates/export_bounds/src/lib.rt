//! Bounds of exports: that of one export, the least one that holds either of two, and whether two are the same.
#![tactic(auto)]

mod either;
mod exact;
mod laws;
mod same;

pub use either::widen_bound;
pub use exact::exact_export_bound;
pub use laws::exports_hold;
pub use same::same_export_bound;
