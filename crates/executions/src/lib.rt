//! What a run is to everything that judges runs: a count, and an event for each number.
#![tactic(auto)]

pub mod execution;
pub mod fault;
pub mod iter;
pub mod kinds;
pub mod relations;
