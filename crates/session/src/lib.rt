//! Sessions: a script is folded over a core. Each line takes the next stretch of the log, and the text is made of what
//! the lines show.
#![tactic(auto)]

mod edits;
mod laws;
mod pool;
mod promises;
mod scripts;
mod sessions;
mod showing;

pub use laws::{lines_cut, one_script_run, script_runs_lead, some_script_run};
pub use pool::Pool;
pub use promises::scripts_keep_yes;
pub use scripts::run_script;
pub use sessions::Session;
