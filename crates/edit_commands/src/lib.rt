//! Scripts, and the edits of logs: the lines of a text, each judged against the network that the lines before leave.
#![tactic(auto)]

mod edits;
mod judging;
mod laws;
mod lines;
mod scripts;
mod types;
mod values;
mod words;

pub use edits::input_number;
pub use judging::read_edit;
pub use laws::{entries_agree, scripts_are_judged, scripts_have_commands, values_are_read};
pub use lines::line_words;
pub use scripts::read_script;
pub use types::{Fault, Line, LineFailure, ScriptCommand, ScriptFault};
pub use values::read_value;
pub use words::device_number;
