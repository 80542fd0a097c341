//! Example runs, each with its log and its outcome under each model: proved to be what the definitions come to.
#![tactic(auto)]

#[cfg(test)]
mod cases;
pub mod logs;
