//! The limits of a run, each named once. `max_events` and its like in specs/Limits.antt are the same numbers, and do not
//! cite these: a definition that did would follow the code into a wrong one.

/// The most events that a run has.
pub const MAX_EVENTS: usize = 512;

/// Threads are numbered from 1 to this.
pub const MAX_THREADS: u8 = 8;

/// Locations are numbered from 1 to this; a fence has location 0.
pub const MAX_LOCATIONS: u8 = 64;
