//! What a verdict says: consistent, or a violation with the steps that show it. Its definitions are in specs/, and in proofs/ the theorems
//! that a violation rules every order out and that the order which is laid satisfies the rule.
#![tactic(auto)]

pub mod step;
pub mod verdict;
pub mod violation;
