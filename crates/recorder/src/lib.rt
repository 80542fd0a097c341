//! A run recorded call by call in the caller's memory, and sealed into an execution.
#![tactic(auto)]

pub mod fault;
mod held;
pub mod opened;
pub mod sealed;
pub mod sealing;
