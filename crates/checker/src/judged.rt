//! Judging a run where no buffers are handed in.
ghost use Rattle.std.specs.Prelude.{◌≡◌, length};
ghost use Rattle.events.specs.Limits.{max_events};
ghost use Rattle.checker.specs.Promise.{JudgesAt};

use events::limits::MAX_EVENTS;
use executions::execution::Execution;
use executions::fault::CheckerFault;
use judge::by_model::judge_under;
use models::model::Model;
use verdicts::step::{Sort, Step};
use verdicts::verdict::Verdict;

const NO_STEP: Step = Step {
    from: 0,
    to: 0,
    sort: Sort::Po,
};

/// What judging a run answered, and what it left in buffers of its own: the order of a consistent run heads the one, the steps
/// of a violation head the other, and every other place holds zeros.
#[derive(Drop)]
pub struct Judged {
    pub verdict: Result<Verdict, CheckerFault>,
    pub order: [u16; MAX_EVENTS],
    pub steps: [Step; MAX_EVENTS],
}

impl Judged {
    // Judges the run under the model.
    pub(crate) fn under<M: Model, E: Execution>(rule: &M::Synchronises, run: &E) -> Judged
        ensures judges { JudgesAt M.SCOPE (M.Synchronises.Rule.pairs rule.now (E.Execution.events run.now)) (E.Execution.events run.now) result }
        ensures places { length result.order ≡ max_events }
    {
        let mut order = [0; MAX_EVENTS];
        let mut steps = [NO_STEP; MAX_EVENTS];
        let verdict = judge_under::<M, E>(rule, run, &mut order, &mut steps);
        Judged {
            verdict,
            order,
            steps,
        }
    }
}
