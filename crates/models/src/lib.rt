//! The memory models: rules, scopes and axioms.
#![tactic(auto)]

pub mod axiom;
pub mod model;
pub mod name;
pub mod rc20;
pub mod rule;
pub mod rules;
pub mod scope;
