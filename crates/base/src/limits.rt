//! The limits of a simulation.

/// The most members of a cluster.
pub const MOST_MEMBERS: u64 = 16_384;

/// The most members of a cluster whose text has version 2 or 3.
pub const MOST_MEMBERS_BEFORE_4: u64 = 4096;

/// The most members of a cluster whose text has version 1.
pub const MOST_MEMBERS_AT_FIRST: u64 = 1024;

/// The latest moment that a scenario may name, in ticks: 2^40.
pub const LATEST_MOMENT: u64 = 1 << 40;

/// The most parts into which a cluster's members may be put.
pub const MOST_PARTS: usize = 64;

/// The most workers by which a scenario may be run.
pub const MOST_WORKERS: usize = 64;

/// How many batches of rows a relay has room for.
pub const BATCHES_OF_A_RELAY: usize = 8;

/// Where a counter stands when it can rise no further: 2^63.
pub const COUNTER_LIMIT: u64 = 1 << 63;
