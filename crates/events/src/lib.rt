//! What a run is made of: events, the checks on their fields, and the form of every refusal.
#![tactic(auto)]

pub mod event;
pub mod limits;
pub mod plain;
pub mod raw;
pub mod refusal;
pub mod text;
