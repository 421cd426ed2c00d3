//! What each command answers, and what a yes in an answer promises.
#![tactic(auto)]

mod asked;
mod laws;
mod quiet;
mod stops;
mod working;

pub use asked::past_limit;
pub use laws::{answer_statuses, answers_keep, limits_are, one_answer, runs_replay, some_answer};
pub use quiet::answer_quiet;
pub use working::{answer_gen, answer_run};
