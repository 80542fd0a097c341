//! Judging a run under a model.
ghost use Rattle.std.specs.Prelude.{◌≡◌, ◌≤◌, length, take, drop};
ghost use Rattle.events.specs.Limits.{max_events};
ghost use Rattle.events.specs.Graph.{PoRf};
ghost use Rattle.toposort.specs.Cycle.{IsCycle};
ghost use Rattle.verdicts.specs.Violations.{SameEvent, StepHolds, IsPoOrRf, Cycle as CycleOf};
ghost use Rattle.verdicts.specs.declared.verdict.Verdict.TheVariants.{Inconsistent};
ghost use Rattle.verdicts.specs.declared.violation.Violation.TheVariants.{Causal as CausalOf};
ghost use Rattle.verdicts.specs.Layings.{OneLaid};
ghost use Rattle.models.specs.Models.{Hb};
ghost use Rattle.judge.specs.Judges.{Admits, Says, Judges, Decides, RulesOut};

use crate::by_scope::{judge_location, judge_weak, judge_whole};
use crate::joins::CausalJoins;
use crate::refusals::admit;
use crate::ring::write_steps;
use causality::causal::Causal;
use chains::chains::Chains;
use executions::execution::Execution;
use executions::fault::CheckerFault;
use models::model::Model;
use models::rule::Rule;
use models::scope::Scope;
use toposort::search::Cycle;
use verdicts::step::Step;
use verdicts::verdict::Verdict;
use verdicts::violation::Violation;

// The verdict on a run whose chains are at hand.
fn judge_chains<R: Rule, E: Execution>(
    scope: Scope,
    rule: &R,
    causal: &Causal<E>,
    chains: &Chains<E>,
    order: &mut [u16],
    steps: &mut [Step],
) -> Verdict
    requires same { chains.now.run.now ≡ causal.now.run.now }
    requires admits { Admits scope (E.Execution.events causal.now.run.now) order.old steps.old }
    ensures { Says scope (R.Rule.pairs rule.now (E.Execution.events causal.now.run.now)) (E.Execution.events causal.now.run.now) order.old order.new steps.old steps.new result }
{
    let hb = causal.happens_before(rule);
    match scope {
        Scope::Location => judge_location(chains, &hb, order, steps),
        Scope::Whole => judge_whole(chains, &hb, order, steps),
        Scope::Weak => judge_weak(chains, &hb),
    }
}

// Shows the cycle by which a run breaks causality.
fn show_cycle<E: Execution>(run: &E, cycle: &Cycle, steps: &mut [Step]) -> Verdict
    requires few { cycle.now.length ≤ max_events }
    requires room { max_events ≤ length steps.old }
    requires cycle { IsCycle (length (E.Execution.events run.now)) (PoRf (E.Execution.events run.now)) (take cycle.now.length cycle.now.nodes) }
    ensures answers { result ≡ Inconsistent (CausalOf cycle.now.length) }
    ensures shows { CycleOf SameEvent (StepHolds IsPoOrRf (E.Execution.events run.now) (PoRf (E.Execution.events run.now))) (take cycle.now.length steps.new) }
    ensures rest { drop cycle.now.length steps.new ≡ drop cycle.now.length steps.old }
{
    write_steps(&CausalJoins { run }, &cycle.nodes, cycle.length, steps);
    Verdict::Inconsistent(Violation::Causal(cycle.length))
}

// The verdict on a run that is not refused.
fn judge_admitted<R: Rule, E: Execution>(
    scope: Scope,
    rule: &R,
    run: &E,
    order: &mut [u16],
    steps: &mut [Step],
) -> Verdict
    requires { Admits scope (E.Execution.events run.now) order.old steps.old }
    ensures { Says scope (R.Rule.pairs rule.now (E.Execution.events run.now)) (E.Execution.events run.now) order.old order.new steps.old steps.new result }
{
    let causal = match Causal::of(run) {
        Ok(causal) => causal,
        Err(cycle) => return show_cycle(run, &cycle, steps),
    };
    match Chains::of(&causal) {
        Ok(chains) => judge_chains(scope, rule, &causal, &chains, order, steps),
        Err((u, v)) => Verdict::Inconsistent(Violation::Twin(u, v)),
    }
}

// The verdict, or a refusal.
fn judge_at<R: Rule, E: Execution>(
    scope: Scope,
    rule: &R,
    run: &E,
    order: &mut [u16],
    steps: &mut [Step],
) -> Result<Verdict, CheckerFault>
    ensures { Judges scope (R.Rule.pairs rule.now (E.Execution.events run.now)) (E.Execution.events run.now) order.old order.new steps.old steps.new result }
{
    if let Err(fault) = admit(scope, run, order, steps) {
        return Err(fault);
    }
    Ok(judge_admitted(scope, rule, run, order, steps))
}

/// Whether some order of the run's stores satisfies the rule of the model at its scope. If so, the order that is laid is put at
/// the head of the order buffer; at weak scope there is none. If not, the steps of a violation, as many as it has, are put at the
/// head of the step buffer. Every other place stays as it was.
///
/// Refused with `ShortBuffer` exactly where either buffer has fewer places than a run may have events, and then with
/// `HasUpdates` exactly where the scope is whole and the run has updates; both buffers are then as they were. Besides the answer,
/// the contract has the theorem that the verdict is right, and theorems about orders and violations, in clauses that do not look
/// at the answer.
pub fn judge_under<M: Model, E: Execution>(
    rule: &M::Synchronises,
    run: &E,
    order: &mut [u16],
    steps: &mut [Step],
) -> Result<Verdict, CheckerFault>
    ensures answers { Judges M.SCOPE (M.Synchronises.Rule.pairs rule.now (E.Execution.events run.now)) (E.Execution.events run.now) order.old order.new steps.old steps.new result }
    ensures decides { Decides M.SCOPE (M.Synchronises.Rule.pairs rule.now (E.Execution.events run.now)) (E.Execution.events run.now) result }
    ensures one { OneLaid M.SCOPE (E.Execution.events run.now) (Hb (M.Synchronises.Rule.pairs rule.now (E.Execution.events run.now)) (E.Execution.events run.now)) }
    ensures rules_out { RulesOut M.SCOPE (M.Synchronises.Rule.pairs rule.now (E.Execution.events run.now)) (E.Execution.events run.now) }
{
    judge_at(M::SCOPE, rule, run, order, steps)
}
