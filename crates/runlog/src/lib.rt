//! The log of a run: its byte layout, what is refused, and an opened log as an execution.
#![tactic(auto)]

pub mod fault;
mod layout;
pub mod log;
pub mod opening;
mod records;
pub mod sample;
