//! Sets of pairs of event numbers.
#![tactic(auto)]

#[cfg(test)]
mod cases;
pub mod relation;
