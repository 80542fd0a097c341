//! The steps of a cycle, written into the step buffer.
ghost use Rattle.std.specs.Prelude.{◌≡◌, ◌≤◌, ◌<◌, ℕ, length, take, drop, slice_index};
ghost use Rattle.events.specs.Limits.{max_events};
ghost use Rattle.toposort.specs.Cycle.{IsCycle};
ghost use Rattle.verdicts.specs.declared.step.Step.{Step as StepOf};
ghost use Rattle.judge.specs.Ring.{AllJoined, next_in, ShowsEach};

use events::limits::MAX_EVENTS;
use executions::execution::Execution;
use verdicts::step::Step;

/// The edges of a graph, of each of which a step can be shown.
pub(crate) trait Joins {
    ghost edge: { Self → ℕ → ℕ → Type 0 };

    ghost shows: { Self → ℕ → ℕ → StepOf → Type 0 };

    /// A step that shows the edge from a to b.
    fn step(&self, a: usize, b: usize) -> Step
        requires { edge self.now a b }
        ensures { shows self.now a b result };
}

// The number after that at place i of a cycle of n numbers.
fn next(cycle: &[u16; MAX_EVENTS], n: usize, i: usize) -> usize
    requires within { i < n }
    requires fits { n ≤ max_events }
    ensures { result ≡ slice_index cycle.now (next_in n i) }
{
    usize::from(cycle[if i + 1 < n { i + 1 } else { 0 }])
}

// Writes a step for each edge of a cycle into the first places.
pub(crate) fn write_steps<J: Joins>(
    joins: &J,
    cycle: &[u16; MAX_EVENTS],
    n: usize,
    steps: &mut [Step],
)
    requires fits { n ≤ max_events }
    requires room { n ≤ length steps.old }
    requires joined { AllJoined (J.edge joins.now) cycle.now n }
    ensures shows { ShowsEach (J.shows joins.now) cycle.now n steps.new }
    ensures rest { drop n steps.new ≡ drop n steps.old }
{
    for i in 0..n {
        steps[i] = joins.step(usize::from(cycle[i]), next(cycle, n, i));
    }
}
