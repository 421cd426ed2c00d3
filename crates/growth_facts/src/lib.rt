//! Growth: by how much an expression of a body is raised above what is heard of the body's variable.
#![tactic(auto)]

mod laws;
mod node_facts;
mod nodes;
mod tables;
mod walk;

pub use laws::growth_law;
pub use node_facts::Growth;
pub use nodes::{greatest_integer, least_integer};
pub use walk::growth;
