//! Scenes and tables as JSON.
#![tactic(auto)]

mod copies;
mod copy_forms;
mod devices;
mod exports;
mod inputs;
mod kept;
mod laws;
mod links;
mod networks;
mod numbers;
mod places;
mod readers;
mod rising;
mod rows;
mod scenes;
mod tables;
mod texts;
mod types;
mod values;

pub use laws::{accepted_lists_are_kept, accepted_scenes_fit, tables_read_back};
pub use scenes::read_scene;
pub use texts::write_table;
pub use types::{JsonFault, Path, Scene};
