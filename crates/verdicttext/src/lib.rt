//! Verdicts as text, a line each.
#![tactic(auto)]

mod cycle;
pub mod line;
mod model;
mod order;
mod violation;
mod word;
