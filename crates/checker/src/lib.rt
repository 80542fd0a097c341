//! All that the library promises of records, verdicts, orders, models and views, in the contract of one call.
#![tactic(auto)]

pub mod check;
pub mod checked;
pub mod judged;
