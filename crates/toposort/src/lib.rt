//! Listing the nodes of a graph in topological order, or finding a cycle that forbids one.
#![tactic(auto)]

mod cycle;
pub mod graph;
mod ready;
pub mod search;
