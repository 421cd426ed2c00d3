//! Limits shared by crates that don't depend on each other.

/// The most bytes of an input.
pub const MOST_BYTES: usize = 1_048_576;

/// The greatest number that a program may write, and so the greatest ceiling.
pub const GREATEST: u32 = 1_000_000;

/// The most nodes of an unfolded program.
pub const MOST_NODES: u32 = 2_048;

/// The most links of a device.
pub const MOST_LINKS: usize = 32;

/// The most devices of a scenario.
pub const MOST_SCENARIO_DEVICES: u32 = 512;

/// The most workers.
pub const MOST_WORKERS: u32 = 16;
