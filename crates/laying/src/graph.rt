//! The graphs along whose topological orders a run is laid out.
use chains::chains::Chains;
use chains::reads::Reads;
use executions::execution::Execution;
use relation::relation::Relation;
use toposort::graph::Graph;

// The events of a run, with an edge for each two heads of chains between which a step leads. What heads no chain has no edge.
#[derive(Drop)]
pub(crate) struct ChainGraph<'a, E: Execution> {
    pub(crate) chains: &'a Chains<'a, E>,
    pub(crate) steps: &'a Relation,
}

// The events of a run, with an edge for each pair of happens-before and for each read step.
#[derive(Drop)]
pub(crate) struct EventGraph<'a, E: Execution> {
    pub(crate) reads: &'a Reads<'a, E>,
    pub(crate) hb: &'a Relation,
    pub(crate) steps: &'a Relation,
}

impl<'a, E: Execution> Graph for ChainGraph<'a, E> {
    ghost use Rattle.std.specs.Prelude.{length};
    ghost use Rattle.relation.specs.Pairs.{Pairs};

    ghost size = { λ g. length (E.Execution.events g.chains.now.run.now) };

    ghost edge = { λ g. Pairs g.steps.now };

    fn size(&self) -> usize {
        self.chains.run().count()
    }

    fn edge(&self, a: usize, b: usize) -> bool {
        self.steps.contains(a, b)
    }

    ghost small = { λ g. (E.full g.chains.now.run.now).few };
}

impl<'a, E: Execution> Graph for EventGraph<'a, E> {
    ghost use Rattle.std.specs.Prelude.{length};
    ghost use Rattle.events.specs.Relations.{◌∪◌};
    ghost use Rattle.relation.specs.Pairs.{Pairs};

    ghost size = { λ g. length (E.Execution.events g.reads.now.run.now) };

    ghost edge = { λ g. Pairs g.hb.now ∪ Pairs g.steps.now };

    fn size(&self) -> usize {
        self.reads.run().count()
    }

    fn edge(&self, a: usize, b: usize) -> bool {
        self.hb.contains(a, b) || self.steps.contains(a, b)
    }

    ghost small = { λ g. (E.full g.reads.now.run.now).few };
}
