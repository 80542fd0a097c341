//! Judging a run at each scope, where its chains and happens-before are at hand.
ghost use Rattle.std.specs.Prelude.{◌≡◌, ◌≤◌, ℕ, List, length, take, drop};
ghost use Rattle.events.specs.Limits.{max_events};
ghost use Rattle.relation.specs.Pairs.{Pairs};
ghost use Rattle.models.specs.declared.scope.Scope.TheVariants.{Location, Whole, Weak};
ghost use Rattle.models.specs.Joined.{Joined};
ghost use Rattle.verdicts.specs.declared.step.Step.{Step as StepOf};
ghost use Rattle.verdicts.specs.declared.verdict.Verdict.TheVariants.{Consistent};
ghost use Rattle.judge.specs.Found.{Concludes};

use crate::joins::{ChainJoins, EventJoins};
use crate::ring::write_steps;
use crate::weak::weak_violation;
use chains::chains::Chains;
use chains::reads::Reads;
use executions::execution::Execution;
use executions::kinds::location;
use laying::lay::{lay_chains, lay_events};
use laying::stores::Laid;
use relation::relation::Relation;
use verdicts::step::Step;
use verdicts::verdict::Verdict;
use verdicts::violation::Violation;

// Puts the stores that are laid at the head of the order buffer.
fn put(laid: &Laid, order: &mut [u16]) -> Verdict
    requires fits { laid.now.count ≤ max_events }
    requires room { max_events ≤ length order.old }
    ensures answers { result ≡ Consistent laid.now.count }
    ensures laid { take laid.now.count order.new ≡ take laid.now.count laid.now.stores }
    ensures rest { drop laid.now.count order.new ≡ drop laid.now.count order.old }
{
    order[..laid.count].copy_from_slice(&laid.stores[..laid.count]);
    Verdict::Consistent(laid.count)
}

// Chains are laid whole, unless a step leads back in one, or round through several.
pub(crate) fn judge_location<E: Execution>(
    chains: &Chains<E>,
    hb: &Relation,
    order: &mut [u16],
    steps: &mut [Step],
) -> Verdict
    requires order { max_events ≤ length order.old }
    requires steps { max_events ≤ length steps.old }
    ensures { Concludes Location (E.Execution.events chains.now.run.now) (Pairs hb.now) order.old order.new steps.old steps.new result }
{
    if let Some(step) = chains.step_back(hb) {
        steps[0] = step;
        return Verdict::Inconsistent(Violation::Back);
    }
    match lay_chains(chains, hb) {
        Ok(laid) => put(&laid, order),
        Err(cycle) => {
            write_steps(
                &ChainJoins { chains, hb },
                &cycle.nodes,
                cycle.length,
                steps,
            );
            let l = location(chains.run(), usize::from(cycle.nodes[0]));
            Verdict::Inconsistent(Violation::Round(l, cycle.length))
        }
    }
}

// All events are laid, unless happens-before and read steps form a cycle.
pub(crate) fn judge_whole<E: Execution>(
    chains: &Chains<E>,
    hb: &Relation,
    order: &mut [u16],
    steps: &mut [Step],
) -> Verdict
    requires causal { Joined (E.Execution.events chains.now.run.now) (Pairs hb.now) }
    requires order { max_events ≤ length order.old }
    requires steps { max_events ≤ length steps.old }
    ensures { Concludes Whole (E.Execution.events chains.now.run.now) (Pairs hb.now) order.old order.new steps.old steps.new result }
{
    let reads = Reads::of(chains.run());
    match lay_events(&reads, hb) {
        Ok(laid) => put(&laid, order),
        Err(cycle) => {
            let joins = EventJoins { reads: &reads, hb };
            write_steps(&joins, &cycle.nodes, cycle.length, steps);
            Verdict::Inconsistent(Violation::Whole(cycle.length))
        }
    }
}

// Nothing is laid, and nothing written.
pub(crate) fn judge_weak<E: Execution>(chains: &Chains<E>, hb: &Relation) -> Verdict
    ensures { (order : List ℕ) (steps : List StepOf) → Concludes Weak (E.Execution.events chains.now.run.now) (Pairs hb.now) order order steps steps result }
{
    match weak_violation(chains.run(), hb) {
        Some((w, v, r)) => Verdict::Inconsistent(Violation::Weak(w, v, r)),
        None => Verdict::Consistent(0),
    }
}
