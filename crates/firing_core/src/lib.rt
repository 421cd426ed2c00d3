//! Networks of devices that fire: cores, their steps, and books of steps.
#![tactic(auto)]

mod books;
mod cores;
mod entries;
mod filling;
mod laws;
mod rooms;
mod snaps;

pub use books::{Book, replay};
pub use cores::Core;
pub use entries::{Edit, EditFault, Entry, Part, ReplayFault, StepFault};
pub use laws::{faultless_steps, logs_decide, runs_cut, steps_agree, steps_keep_good};
pub use rooms::Room;
pub use snaps::copy_snap;
