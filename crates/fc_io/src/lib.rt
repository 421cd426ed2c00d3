//! The outside of the program: where its bytes come from and where they go, and the lines of a text.
#![tactic(auto)]

mod lines;
mod memory_sink;
mod memory_source;
mod outside;
mod standard;
mod transfer;

pub use lines::{first_line, line_text};
pub use memory_sink::{CalmSink, MemSink};
pub use memory_source::{CalmSource, MemSource};
pub use outside::{Failed, Sink, Source};
pub use standard::{StdSink, StdSource};
pub use transfer::{ReadAll, WriteFault, read_all, write_all};
