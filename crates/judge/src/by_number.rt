//! Judging a run under a model by number.
ghost use Rattle.models.specs.Numbers.{model_of};
ghost use Rattle.judge.specs.Judges.{JudgesUnder};

use crate::by_model::judge_under;
use executions::execution::Execution;
use executions::fault::CheckerFault;
use models::model::{Ra, Rc20, Relaxed, Sra, Wra};
use models::name::ModelName;
use models::rc20::Rc20Rule;
use models::rules::{EmptyRule, ReadsFromRule};
use verdicts::step::Step;
use verdicts::verdict::Verdict;

/// Judges the run as `judge_under` does, under the model with this number. Refused with `NoModel` exactly where no model has the
/// number, before anything else; both buffers are then as they were.
pub fn judge<E: Execution>(
    model: u8,
    run: &E,
    order: &mut [u16],
    steps: &mut [Step],
) -> Result<Verdict, CheckerFault>
    ensures { JudgesUnder (model_of model) (E.Execution.events run.now) order.old order.new steps.old steps.new result }
{
    match ModelName::numbered(model) {
        Some(ModelName::Rc20) => judge_under::<Rc20, E>(&Rc20Rule, run, order, steps),
        Some(ModelName::Ra) => judge_under::<Ra, E>(&ReadsFromRule, run, order, steps),
        Some(ModelName::Sra) => judge_under::<Sra, E>(&ReadsFromRule, run, order, steps),
        Some(ModelName::Wra) => judge_under::<Wra, E>(&ReadsFromRule, run, order, steps),
        Some(ModelName::Relaxed) => judge_under::<Relaxed, E>(&EmptyRule, run, order, steps),
        None => Err(CheckerFault::NoModel),
    }
}
