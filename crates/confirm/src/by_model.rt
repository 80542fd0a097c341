//! Confirming an order under a model.
ghost use Rattle.std.specs.Prelude.{◌≡◌, ◌↔◌, ℕ, List, Ok};
ghost use Rattle.models.specs.Orders.{ListsStores, IsOrder, Mo, MoOrders};
ghost use Rattle.models.specs.Models.{Satisfies};
ghost use Rattle.confirm.specs.Confirm.{Confirms};
ghost use Rattle.confirm.specs.declared.finding.Finding.TheVariants.{Passes};

use crate::candidate::Candidate;
use crate::finding::Finding;
use causality::causal::Causal;
use executions::execution::Execution;
use executions::fault::CheckerFault;
use models::axiom::Axiom;
use models::model::Model;
use models::rule::Rule;
use models::scope::Scope;

// Whether the order satisfies the rule at the scope, or which axiom is the first that fails.
fn confirm_at<R: Rule, E: Execution>(
    scope: Scope,
    rule: &R,
    run: &E,
    order: &[u16],
) -> Result<Finding, CheckerFault>
    ensures { Confirms scope (R.Rule.pairs rule.now (E.Execution.events run.now)) (E.Execution.events run.now) order.now result }
{
    let Some(candidate) = Candidate::at(scope, run, order) else {
        return Err(CheckerFault::NotAnOrder);
    };
    let Ok(causal) = Causal::of(run) else {
        return Ok(Finding::Fails(Axiom::Causality));
    };
    let hb = causal.happens_before(rule);
    Ok(candidate.finding(scope, &hb))
}

/// Whether the order passes under the model, or which axiom is the first that fails. Refused with `NotAnOrder` exactly where it
/// is not an order of the run's stores. Besides the answer, the contract has a theorem about orders, in a clause that does not look at
/// the answer.
pub fn confirm_under<M: Model, E: Execution>(
    rule: &M::Synchronises,
    run: &E,
    order: &[u16],
) -> Result<Finding, CheckerFault>
    ensures answers { Confirms M.SCOPE (M.Synchronises.Rule.pairs rule.now (E.Execution.events run.now)) (E.Execution.events run.now) order.now result }
    ensures passes { (result ≡ Ok Passes) ↔
        (IsOrder M.SCOPE (E.Execution.events run.now) order.now × Satisfies M.SCOPE (M.Synchronises.Rule.pairs rule.now (E.Execution.events run.now)) (E.Execution.events run.now) (Mo (E.Execution.events run.now) order.now)) }
    ensures orders { (o : List ℕ) → ListsStores (E.Execution.events run.now) o → MoOrders (E.Execution.events run.now) (Mo (E.Execution.events run.now) o) }
{
    confirm_at(M::SCOPE, rule, run, order)
}
