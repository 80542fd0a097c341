//! Executions seen in other modes, and else as they are.
#![tactic(auto)]

pub mod borrowed;
pub mod relaxed;
pub mod strengthened;
