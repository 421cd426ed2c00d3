//! The texts that are shown: verdicts, facts of nodes, values of devices, fields and settle rounds.
#![tactic(auto)]

mod lines;
mod node_facts;
mod settling;
mod verdicts;
mod writing;

pub use lines::{field, values};
pub use node_facts::facts;
pub use settling::{settle_line, settled_device};
pub use verdicts::{rounds_line, verdict, verdict_line};
pub use writing::write_after_space;
