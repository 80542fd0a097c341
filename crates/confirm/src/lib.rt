//! Confirming an order of a run's stores under a memory model.
#![tactic(auto)]

pub mod by_model;
pub mod by_number;
mod candidate;
mod checks;
pub mod finding;
mod graph;
mod relations;
