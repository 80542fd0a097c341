//! Texts written piece by piece into memory of the caller's, and counted where there is none.
#![tactic(auto)]

pub mod pen;
pub mod put;
