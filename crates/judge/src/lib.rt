//! Judging a run: whether some order of its stores satisfies a rule at a scope.
#![tactic(auto)]

pub mod by_model;
pub mod by_number;
mod by_scope;
mod joins;
mod refusals;
mod ring;
mod weak;
