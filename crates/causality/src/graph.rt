//! The graph whose topological order is the causal order of a run.

use executions::execution::Execution;
use executions::relations::{po, rf};
use toposort::graph::Graph;

// The events of a run, with an edge for each pair of program order or reads-from.
#[derive(Drop)]
pub(crate) struct CausalGraph<'a, E: Execution> {
    pub(crate) run: &'a E,
}

impl<'a, E: Execution> Graph for CausalGraph<'a, E> {
    ghost use Rattle.std.specs.Prelude.{length};
    ghost use Rattle.events.specs.Graph.{PoRf};

    ghost size = { λ g. length (E.Execution.events g.run.now) };

    ghost edge = { λ g. PoRf (E.Execution.events g.run.now) };

    fn size(&self) -> usize {
        self.run.count()
    }

    fn edge(&self, a: usize, b: usize) -> bool {
        po(self.run, a, b) || rf(self.run, a, b)
    }

    ghost small = { λ g. (E.full g.run.now).few };
}
