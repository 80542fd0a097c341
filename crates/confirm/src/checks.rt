//! Whether each axiom holds of an order, where happens-before is at hand.
ghost use Rattle.std.specs.Prelude.{◌↔◌, ℕ, IsTrue};
ghost use Rattle.events.specs.Relations.{◌∪◌, Acyclic};
ghost use Rattle.events.specs.Run.{Within};
ghost use Rattle.events.specs.Graph.{Inside};
ghost use Rattle.models.specs.Orders.{Mo};
ghost use Rattle.models.specs.Models.{Holds};
ghost use Rattle.models.specs.declared.axiom.Axiom.TheVariants.{Causality, WriteCoherence};
ghost use Rattle.confirm.specs.Confirm.{Finds};
ghost use Rattle.relation.specs.Pairs.{Pairs};
ghost use Rattle.confirm.specs.Breaks.{Twins, WriterBefore, PairBreaks, HasBreakingPair};

use crate::candidate::Candidate;
use crate::finding::Finding;
use crate::graph::HbMo;
use executions::execution::Execution;
use executions::kinds::{is_store, is_update, location};
use executions::relations::{rf, writer};
use models::axiom::Axiom;
use models::scope::Scope;
use relation::relation::Relation;
use toposort::search::is_acyclic;

// Whether u and v are different updates of one writer.
fn are_twins<E: Execution>(run: &E, u: usize, v: usize) -> bool
    ensures { IsTrue result ↔ Twins (E.Execution.events run.now) u v }
{
    match writer(run, u) {
        Some(w) => u != v && is_update(run, u) && is_update(run, v) && rf(run, w, v),
        None => false,
    }
}

// Whether the writer of r happens before v, which is at its location.
fn is_writer_before<E: Execution>(run: &E, hb: &Relation, r: usize, v: usize) -> bool
    ensures { IsTrue result ↔ WriterBefore (E.Execution.events run.now) (Pairs hb.now) r v }
{
    match writer(run, r) {
        Some(w) => hb.contains(w, v) && location(run, w) == location(run, v),
        None => false,
    }
}

impl<'a, E: Execution> Candidate<'a, E> {
    // Whether a and b break the axiom.
    fn breaks(&self, which: Axiom, scope: Scope, hb: &Relation, a: usize, b: usize) -> bool
        ensures { IsTrue result ↔ PairBreaks which scope (E.Execution.events self.now.run.now) (Pairs hb.now) (Mo (E.Execution.events self.now.run.now) self.now.order.now) a b }
    {
        match (which, scope) {
            (Axiom::WriteCoherence, Scope::Location) => {
                self.mo_rf(a, b) && (b == a || hb.contains(b, a))
            }
            (Axiom::ReadCoherence, Scope::Location | Scope::Whole) => {
                hb.contains(b, a) && self.fr_rf(a, b)
            }
            (Axiom::ReadCoherence, Scope::Weak) => {
                is_store(self.run, b) && hb.contains(b, a) && is_writer_before(self.run, hb, a, b)
            }
            (Axiom::Atomicity, Scope::Location | Scope::Whole) => self.fr(a, b) && self.mo(b, a),
            (Axiom::Atomicity, Scope::Weak) => are_twins(self.run, a, b),
            // Broken by cycles, or not at all.
            (Axiom::Causality, _) | (Axiom::WriteCoherence, Scope::Whole | Scope::Weak) => false,
        }
    }

    // Whether some event, with a, breaks the axiom.
    fn breaks_with_any(&self, which: Axiom, scope: Scope, hb: &Relation, a: usize) -> bool
        ensures { IsTrue result ↔ ((b : ℕ) × Within (E.Execution.events self.now.run.now) b × PairBreaks which scope (E.Execution.events self.now.run.now) (Pairs hb.now) (Mo (E.Execution.events self.now.run.now) self.now.order.now) a b) }
    {
        for b in 1..self.run.count() + 1 {
            if self.breaks(which, scope, hb, a, b) {
                return true;
            }
        }
        false
    }

    // Whether some pair of events breaks the axiom.
    fn has_breaking_pair(&self, which: Axiom, scope: Scope, hb: &Relation) -> bool
        ensures { IsTrue result ↔ HasBreakingPair which scope (E.Execution.events self.now.run.now) (Pairs hb.now) (Mo (E.Execution.events self.now.run.now) self.now.order.now) }
    {
        for a in 1..self.run.count() + 1 {
            if self.breaks_with_any(which, scope, hb, a) {
                return true;
            }
        }
        false
    }

    // Whether happens-before and modification order together have no cycle.
    fn is_acyclic(&self, hb: &Relation) -> bool
        requires { Inside (E.Execution.events self.now.run.now) (Pairs hb.now) }
        ensures { IsTrue result ↔ Acyclic (Pairs hb.now ∪ Mo (E.Execution.events self.now.run.now) self.now.order.now) }
    {
        is_acyclic(&HbMo {
            candidate: self,
            hb,
        })
    }

    // Whether the axiom of write coherence holds.
    fn writes_cohere(&self, scope: Scope, hb: &Relation) -> bool
        requires { Inside (E.Execution.events self.now.run.now) (Pairs hb.now) }
        ensures { IsTrue result ↔ Holds WriteCoherence scope (E.Execution.events self.now.run.now) (Pairs hb.now) (Mo (E.Execution.events self.now.run.now) self.now.order.now) }
    {
        match scope {
            Scope::Location => !self.has_breaking_pair(Axiom::WriteCoherence, Scope::Location, hb),
            Scope::Whole => self.is_acyclic(hb),
            Scope::Weak => true,
        }
    }

    /// The first axiom that fails, where that of causality holds.
    pub(crate) fn finding(&self, scope: Scope, hb: &Relation) -> Finding
        requires inside { Inside (E.Execution.events self.now.run.now) (Pairs hb.now) }
        requires causal { Holds Causality scope (E.Execution.events self.now.run.now) (Pairs hb.now) (Mo (E.Execution.events self.now.run.now) self.now.order.now) }
        ensures { Finds scope (E.Execution.events self.now.run.now) (Pairs hb.now) (Mo (E.Execution.events self.now.run.now) self.now.order.now) result }
    {
        if !self.writes_cohere(scope, hb) {
            Finding::Fails(Axiom::WriteCoherence)
        } else if self.has_breaking_pair(Axiom::ReadCoherence, scope, hb) {
            Finding::Fails(Axiom::ReadCoherence)
        } else if self.has_breaking_pair(Axiom::Atomicity, scope, hb) {
            Finding::Fails(Axiom::Atomicity)
        } else {
            Finding::Passes
        }
    }
}
