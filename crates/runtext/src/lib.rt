//! Runs and logs as text.
#![tactic(auto)]

pub mod run;
