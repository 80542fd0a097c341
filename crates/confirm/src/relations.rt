//! The relations that an order gives.
ghost use Rattle.std.specs.Prelude.{◌≡◌, ◌↔◌, IsTrue, slice_index};
ghost use Rattle.events.specs.Relations.{◌⨾◌, ◌？};
ghost use Rattle.events.specs.Graph.{Rf};
ghost use Rattle.models.specs.Orders.{Mo};
ghost use Rattle.models.specs.Models.{Fr};

use crate::candidate::Candidate;
use executions::execution::Execution;
use executions::kinds::location;
use executions::relations::writer;

impl<'a, E: Execution> Candidate<'a, E> {
    /// Whether a stands before b in modification order.
    pub(crate) fn mo(&self, a: usize, b: usize) -> bool
        ensures { IsTrue result ↔ Mo (E.Execution.events self.now.run.now) self.now.order.now a b }
    {
        let (i, j) = (self.place(a), self.place(b));
        0 < i && i < j && location(self.run, a) == location(self.run, b)
    }

    /// Whether v comes after the writer of r in modification order, and is not r.
    pub(crate) fn fr(&self, r: usize, v: usize) -> bool
        ensures { IsTrue result ↔ Fr (E.Execution.events self.now.run.now) (Mo (E.Execution.events self.now.run.now) self.now.order.now) r v }
    {
        match writer(self.run, r) {
            Some(w) => r != v && self.mo(w, v),
            None => false,
        }
    }

    /// Modification order, and then an optional reads-from.
    pub(crate) fn mo_rf(&self, a: usize, b: usize) -> bool
        ensures { IsTrue result ↔ (Mo (E.Execution.events self.now.run.now) self.now.order.now ⨾ Rf (E.Execution.events self.now.run.now) ？) a b }
    {
        match writer(self.run, b) {
            Some(w) => self.mo(a, b) || self.mo(a, w),
            None => self.mo(a, b),
        }
    }

    /// From-read, and then an optional reads-from.
    pub(crate) fn fr_rf(&self, a: usize, b: usize) -> bool
        ensures { IsTrue result ↔ (Fr (E.Execution.events self.now.run.now) (Mo (E.Execution.events self.now.run.now) self.now.order.now) ⨾ Rf (E.Execution.events self.now.run.now) ？) a b }
    {
        match writer(self.run, b) {
            Some(w) => self.fr(a, b) || self.fr(a, w),
            None => self.fr(a, b),
        }
    }
}
