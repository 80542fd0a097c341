//! What the program prints of a log: all lines, in the contract of one call.
#![tactic(auto)]

pub mod report;
