//! What a node of a program sees: the aligned exports, and the binders in scope, whose values stand among words; and
//! what comes from there, added behind the words.
#![tactic(auto)]

mod hearing;
mod links;
mod scopes;
mod variables;

pub use hearing::push_heard;
pub use links::push_links;
pub use scopes::{Binder, Scope, Sight, is_field, own_row};
pub use variables::push_variable;
