//! The frame of all commands: what they answer, the sections of an input, the program and the scene that they are read
//! to, the core that a scene starts from, and the refusals with their statuses and lines.
#![tactic(auto)]

mod answers;
mod cutting;
mod fault_words;
mod inputs;
mod laws;
mod refusal;
mod rendering;
mod sources;
mod starts;
mod stop;
mod tables;

pub use answers::Answer;
pub use cutting::{one_section, sections, three_sections, two_sections};
pub use inputs::read_input;
pub use laws::{
    inputs_are_read, inputs_start, one_input, one_program_text, one_source, sections_are_within,
    tables_resume, texts_name_inputs, texts_unfold,
};
pub use refusal::{
    LineFault, Refusal, changes_refusal, fault_in, log_refusal, script_refusal, step_fault,
};
pub use rendering::{refuse, stopped};
pub use sources::{read_program, read_source};
pub use starts::start;
pub use stop::{Stop, stop_at};
pub use tables::table_text;
