//! All that the library promises of records, verdicts, orders, models and views, in the contract of one call.
ghost use Rattle.checker.specs.Promise.{Promise, Confirmed, BringsOrder};

use crate::checked::Checked;
use crate::judged::Judged;
use confirm::by_model::confirm_under;
use confirm::finding::Finding;
use events::raw::RawEvent;
use executions::execution::Execution;
use executions::fault::CheckerFault;
use judge::by_model::judge_under;
use models::model::{Model, Ra, Rc20, Relaxed};
use models::rc20::Rc20Rule;
use models::rules::{EmptyRule, ReadsFromRule};
use sessions::calls::{Answer, Call};
use sessions::replay::replay;
use verdicts::step::Step;
use verdicts::verdict::Verdict;
use views::borrowed::Borrowed;
use views::relaxed::Relaxed as RelaxedView;
use views::strengthened::Strengthened;

// What confirming the order of the verdict answers, if it brings one.
fn confirmed<M: Model, E: Execution>(
    rule: &M::Synchronises,
    run: &E,
    verdict: Result<Verdict, CheckerFault>,
    order: &[u16],
) -> Option<Result<Finding, CheckerFault>>
    requires { BringsOrder M.SCOPE (M.Synchronises.Rule.pairs rule.now (E.Execution.events run.now)) (E.Execution.events run.now) order.now verdict }
    ensures { Confirmed M.SCOPE (M.Synchronises.Rule.pairs rule.now (E.Execution.events run.now)) (E.Execution.events run.now) order.now verdict result }
{
    match verdict {
        Ok(Verdict::Consistent(count)) => {
            Some(confirm_under::<M, E>(rule, run, &order[..count]))
        }
        Ok(Verdict::Inconsistent(_)) | Err(_) => None,
    }
}

/// Carries the calls out on one record, which lies in `memory`, as `replay` does, with an answer for each; judges the run under the
/// model over the two buffers, as `judge_under` does; confirms the order that a consistent verdict brings, and the candidate, as
/// `confirm_under` does; and judges the run under RC20 through each view, and under RA and Relaxed without, in buffers of its own. What
/// each of these answered is the answer: refusals of the parts are among it, and nothing else is refused.
///
/// The contract is all that the library promises, of just these answers and of every place that was handed in.
pub fn check<M: Model, E: Execution>(
    calls: &[Call],
    memory: &mut [RawEvent],
    others: &mut [RawEvent],
    answers: &mut [Answer],
    rule: &M::Synchronises,
    run: &E,
    order: &mut [u16],
    steps: &mut [Step],
    candidate: &[u16],
) -> Checked
    ensures { Promise calls.now memory.old memory.new others.old others.new answers.old answers.new M.SCOPE (M.Synchronises.Rule.pairs rule.now (E.Execution.events run.now)) (E.Execution.events run.now) order.old order.new steps.old steps.new candidate.now result }
{
    replay(calls, memory, others, answers);
    let verdict = judge_under::<M, E>(rule, run, order, steps);
    let confirmed = confirmed::<M, E>(rule, run, verdict, order);
    let strengthened = Strengthened {
        run: Borrowed { run },
    };
    let relaxed = RelaxedView {
        run: Borrowed { run },
    };
    Checked {
        verdict,
        confirmed,
        finding: confirm_under::<M, E>(rule, run, candidate),
        ra: Judged::under::<Ra, E>(&ReadsFromRule, run),
        relaxed: Judged::under::<Relaxed, E>(&EmptyRule, run),
        through_strengthened: Judged::under::<Rc20, _>(&Rc20Rule, &strengthened),
        through_relaxed: Judged::under::<Rc20, _>(&Rc20Rule, &relaxed),
    }
}
