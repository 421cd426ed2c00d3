//! Rounds of a mail log: parts, one after another, in each of which every device fires and then every ordered pair of
//! neighbours brings a message of such a firing.
#![tactic(auto)]

mod counting;
mod laws;
mod marks;
mod pairs;

pub use counting::mail_rounds;
pub use laws::some_greatest_mail;
