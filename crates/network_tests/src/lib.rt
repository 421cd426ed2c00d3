//! Tests of what no call of `fc` shows: what crosses threads, and turns of a lock and of a shared table.
#![tactic(auto)]

#[cfg(test)]
mod crossing;
#[cfg(test)]
mod notes;
#[cfg(test)]
mod tables;
