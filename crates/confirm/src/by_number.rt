//! Confirming an order under a model by number.
ghost use Rattle.models.specs.Numbers.{model_of};
ghost use Rattle.confirm.specs.Confirm.{ConfirmsUnder};

use crate::by_model::confirm_under;
use crate::finding::Finding;
use executions::execution::Execution;
use executions::fault::CheckerFault;
use models::model::{Ra, Rc20, Relaxed, Sra, Wra};
use models::name::ModelName;
use models::rc20::Rc20Rule;
use models::rules::{EmptyRule, ReadsFromRule};

/// Whether the order passes under the model with this number, or which axiom is the first that fails. Refused with `NoModel` where
/// no model has the number, and then with `NotAnOrder` where the order is not one of the run's stores.
pub fn confirm<E: Execution>(model: u8, run: &E, order: &[u16]) -> Result<Finding, CheckerFault>
    ensures { ConfirmsUnder (model_of model) (E.Execution.events run.now) order.now result }
{
    match ModelName::numbered(model) {
        Some(ModelName::Rc20) => confirm_under::<Rc20, E>(&Rc20Rule, run, order),
        Some(ModelName::Ra) => confirm_under::<Ra, E>(&ReadsFromRule, run, order),
        Some(ModelName::Sra) => confirm_under::<Sra, E>(&ReadsFromRule, run, order),
        Some(ModelName::Wra) => confirm_under::<Wra, E>(&ReadsFromRule, run, order),
        Some(ModelName::Relaxed) => confirm_under::<Relaxed, E>(&EmptyRule, run, order),
        None => Err(CheckerFault::NoModel),
    }
}
