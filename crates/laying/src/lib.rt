//! Laying the stores of a run out in the order that a verdict shows.
#![tactic(auto)]

#[cfg(test)]
mod cases;
mod gather;
mod graph;
pub mod lay;
pub mod stores;
