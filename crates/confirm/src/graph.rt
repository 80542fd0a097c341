//! The graph of happens-before and modification order.
use crate::candidate::Candidate;
use executions::execution::Execution;
use relation::relation::Relation;
use toposort::graph::Graph;

// The events of a run, with an edge for each pair of happens-before or modification order.
#[derive(Drop)]
pub(crate) struct HbMo<'a, E: Execution> {
    pub(crate) candidate: &'a Candidate<'a, E>,
    pub(crate) hb: &'a Relation,
}

impl<'a, E: Execution> Graph for HbMo<'a, E> {
    ghost use Rattle.std.specs.Prelude.{length};
    ghost use Rattle.events.specs.Relations.{◌∪◌};
    ghost use Rattle.models.specs.Orders.{Mo};
    ghost use Rattle.relation.specs.Pairs.{Pairs};

    ghost size = { λ g. length (E.Execution.events g.candidate.now.run.now) };

    ghost edge = { λ g. Pairs g.hb.now ∪ Mo (E.Execution.events g.candidate.now.run.now) g.candidate.now.order.now };

    fn size(&self) -> usize {
        self.candidate.run.count()
    }

    fn edge(&self, a: usize, b: usize) -> bool {
        self.hb.contains(a, b) || self.candidate.mo(a, b)
    }

    ghost small = { λ g. (E.full g.candidate.now.run.now).few };
}
