//! Causality, and happens-before along a causal order.
#![tactic(auto)]

pub mod causal;
mod graph;
