//! Lists of calls carried out on a record, and what comes of them.
#![tactic(auto)]

pub mod calls;
pub mod handed;
pub mod recording;
pub mod replay;
