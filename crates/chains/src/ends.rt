//! The step between stores that one event before another amounts to.
ghost use Rattle.std.specs.Prelude.{ℕ, MatchOption};
ghost use Rattle.chains.specs.Ends.{Top, Bottom, EndsAs, StepFor};

use executions::execution::Execution;
use executions::kinds::is_store;
use executions::relations::writer;
use verdicts::step::{Sort, Step};

// The store that x is, or else the one that it reads from.
fn top<E: Execution>(run: &E, x: usize) -> Option<usize>
    ensures { MatchOption result
        ((a : ℕ) → ¬ Top (E.Execution.events run.now) a x)
        (λ a. Top (E.Execution.events run.now) a x) }
{
    if is_store(run, x) {
        Some(x)
    } else {
        writer(run, x)
    }
}

// The store that y reads from, through a read step, or else the one that it is.
fn end<E: Execution>(run: &E, y: usize) -> Option<(u16, Sort)>
    ensures { MatchOption result
        ((b : ℕ) → ¬ Bottom (E.Execution.events run.now) b y)
        (λ e. EndsAs (E.Execution.events run.now) e.1 e.0 y) }
{
    match writer(run, y) {
        Some(w) => Some((w as u16, Sort::Read(y as u16))),
        None if is_store(run, y) => Some((y as u16, Sort::Before)),
        None => None,
    }
}

// The step that x before y amounts to, if both are loads or stores.
pub(crate) fn step_between<E: Execution>(run: &E, x: usize, y: usize) -> Option<Step>
    ensures { MatchOption result
        ((a b : ℕ) → Top (E.Execution.events run.now) a x → ¬ Bottom (E.Execution.events run.now) b y)
        (λ s. StepFor (E.Execution.events run.now) x y s) }
{
    let Some(from) = top(run, x) else {
        return None;
    };
    let Some((to, sort)) = end(run, y) else {
        return None;
    };
    Some(Step {
        from: from as u16,
        to,
        sort,
    })
}
