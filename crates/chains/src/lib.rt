//! The rf-chains of a run, and the steps between its stores.
#![tactic(auto)]

pub mod chains;
mod ends;
mod fill;
mod lift;
pub mod reads;
pub mod steps;
