//! The types of programs.
#![tactic(auto)]

mod builtins;
mod check;
mod expressions;
mod faults;
mod known;
mod laws;
mod refusal;
mod scopes;
mod typed;
mod types;

pub use builtins::builtin_type;
pub use check::check_types;
pub use expressions::shared_type;
pub use faults::{TypeFault, TypeKind};
pub use known::{Function, Known};
pub use laws::{one_first_fault, one_type, typed_or_at_fault};
pub use refusal::TypeRefusal;
pub use typed::Typed;
pub use types::{copy_local_type, copy_type, same_local_type, same_types};
