//! The refusals of judging, in the order of checks.
ghost use Rattle.std.specs.Prelude.{MatchOption, MatchResult};
ghost use Rattle.judge.specs.Judges.{NoUpdate, LowestUpdate, Refuses, Admits};

use events::limits::MAX_EVENTS;
use executions::execution::Execution;
use executions::fault::CheckerFault;
use executions::kinds::is_update;
use models::scope::Scope;
use verdicts::step::Step;

// The lowest update of a run.
fn lowest_update<E: Execution>(run: &E) -> Option<usize>
    ensures { MatchOption result
        (NoUpdate (E.Execution.events run.now))
        (λ u. LowestUpdate (E.Execution.events run.now) u) }
{
    for u in 1..run.count() + 1 {
        if is_update(run, u) {
            return Some(u);
        }
    }
    None
}

// Whether a run may be judged at this scope, with these buffers.
pub(crate) fn admit<E: Execution>(
    scope: Scope,
    run: &E,
    order: &[u16],
    steps: &[Step],
) -> Result<(), CheckerFault>
    ensures { MatchResult result
        (λ _. Admits scope (E.Execution.events run.now) order.now steps.now)
        (λ fault. Refuses scope (E.Execution.events run.now) order.now steps.now fault) }
{
    if order.len() < MAX_EVENTS || steps.len() < MAX_EVENTS {
        return Err(CheckerFault::ShortBuffer);
    }
    if scope == Scope::Whole {
        if let Some(u) = lowest_update(run) {
            return Err(CheckerFault::HasUpdates(u));
        }
    }
    Ok(())
}
