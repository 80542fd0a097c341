//! Laying chains, or events, in topological order, and with them the stores.
ghost use Rattle.std.specs.Prelude.{◌≤◌, length, replicate, MatchResult};
ghost use Rattle.events.specs.Limits.{max_events};
ghost use Rattle.events.specs.Relations.{◌∪◌};
ghost use Rattle.relation.specs.Pairs.{Pairs};
ghost use Rattle.toposort.specs.Answer.{Writes, WritesAnyCycle};
ghost use Rattle.verdicts.specs.Layings.{LaysChains, LaysEvents};
ghost use Rattle.verdicts.specs.Steps.{ReadSteps, ChainStep};

use crate::gather::gather;
use crate::graph::{ChainGraph, EventGraph};
use crate::stores::{Laid, lay_stores};
use chains::chains::Chains;
use chains::reads::Reads;
use events::limits::MAX_EVENTS;
use executions::execution::Execution;
use relation::relation::Relation;
use toposort::search::{Cycle, order_or_cycle};

/// Lays the chains of a run: location by rising location, next the lowest-headed chain into which no step leads from another that
/// is not laid; or brings any cycle of chains, by their heads.
pub fn lay_chains<E: Execution>(chains: &Chains<E>, hb: &Relation) -> Result<Laid, Cycle>
    ensures { MatchResult result
        (λ l. (l.count ≤ length (E.Execution.events chains.now.run.now)) × Writes l.count (LaysChains (E.Execution.events chains.now.run.now) (Pairs hb.now)) (replicate max_events 0) l.stores)
        (λ c. WritesAnyCycle c.length (length (E.Execution.events chains.now.run.now)) (ChainStep (E.Execution.events chains.now.run.now) (Pairs hb.now)) (replicate max_events 0) c.nodes) }
{
    let run = chains.run();
    let steps = chains.chain_steps(hb);
    let listing = order_or_cycle(&ChainGraph {
        chains: &*chains,
        steps: &steps,
    })?;
    // Chain by chain as listed, each in causal order, and with each what reads from it.
    let mut members = [0; MAX_EVENTS];
    let count = gather(
        chains.causal_order(),
        chains.heads(),
        &listing[..run.count()],
        &mut members,
    );
    Ok(lay_stores(run, &members[..count]))
}

/// Lays all events of a run along happens-before and read steps, lowest ready first, and reads the stores of each location off; or
/// brings any cycle of the two.
pub fn lay_events<E: Execution>(reads: &Reads<E>, hb: &Relation) -> Result<Laid, Cycle>
    ensures { MatchResult result
        (λ l. (l.count ≤ length (E.Execution.events reads.now.run.now)) × Writes l.count (LaysEvents (E.Execution.events reads.now.run.now) (Pairs hb.now)) (replicate max_events 0) l.stores)
        (λ c. WritesAnyCycle c.length (length (E.Execution.events reads.now.run.now)) (Pairs hb.now ∪ ReadSteps (E.Execution.events reads.now.run.now) (Pairs hb.now)) (replicate max_events 0) c.nodes) }
{
    let run = reads.run();
    let steps = reads.steps(hb);
    let order = order_or_cycle(&EventGraph {
        reads,
        hb,
        steps: &steps,
    })?;
    Ok(lay_stores(run, &order[..run.count()]))
}
