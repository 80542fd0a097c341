//! The rules without modes.
ghost use Rattle.models.specs.Models.{reads_from_rule, empty_rule};
ghost use Rattle.models.specs.JoinedRules.{reads_from_joined, empty_joined};

use crate::rule::Rule;
use executions::execution::Execution;
use executions::relations::rf;

/// Every store synchronises with the loads that read from it.
pub struct ReadsFromRule;

impl Rule for ReadsFromRule {
    ghost pairs = { λ _. reads_from_rule };

    fn syncs<E: Execution>(&self, run: &E, a: usize, b: usize) -> bool {
        rf(run, a, b)
    }

    ghost joined = { λ _. reads_from_joined };
}

/// Nothing synchronises.
pub struct EmptyRule;

impl Rule for EmptyRule {
    ghost pairs = { λ _. empty_rule };

    fn syncs<E: Execution>(&self, _run: &E, _a: usize, _b: usize) -> bool {
        false
    }

    ghost joined = { λ _. empty_joined };
}
