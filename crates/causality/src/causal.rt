//! Causality, and happens-before where it holds.
ghost use Rattle.std.specs.Prelude.{◌≡◌, ◌↔◌, ◌+◌, ◌<◌, ℕ, IsTrue, length, replicate, MatchResult};
ghost use Rattle.events.specs.Limits.{max_events};
ghost use Rattle.events.specs.Graph.{PoRf, Inside};
ghost use Rattle.models.specs.Models.{Hb};
ghost use Rattle.toposort.specs.Answer.{WritesAnyCycle};
ghost use Rattle.toposort.specs.Listing.{Ordered};
ghost use Rattle.relation.specs.Pairs.{has};
ghost use Rattle.events.specs.Relations.{Acyclic};
ghost use Rattle.causality.specs.Causal.{CausalOrder, Step, event_at};
ghost use Rattle.causality.specs.Rows.{Rows, Row};

use crate::graph::CausalGraph;
use events::limits::MAX_EVENTS;
use executions::execution::Execution;
use executions::relations::po;
use models::rule::{Rule, sw};
use relation::relation::Relation;
use toposort::search::{Cycle, order_or_cycle};

/// A run in which program order and reads-from form no cycle, with its events in causal order: the topological order of the
/// two, lowest event first.
#[derive(Drop)]
pub struct Causal<'a, E: Execution> {
    run: &'a E,
    listing: [u16; MAX_EVENTS],
    ghost ordered: { CausalOrder (E.Execution.events run.now) listing },
}

impl<'a, E: Execution> Causal<'a, E> {
    /// The causal order of a run, or any cycle where causality is broken.
    pub fn of(run: &'a E) -> Result<Causal<'a, E>, Cycle>
        ensures { MatchResult result
            (λ c. (c.run.now ≡ run.now) × Acyclic (PoRf (E.Execution.events run.now)))
            (λ c. ¬ Acyclic (PoRf (E.Execution.events run.now)) × WritesAnyCycle c.length (length (E.Execution.events run.now)) (PoRf (E.Execution.events run.now)) (replicate max_events 0) c.nodes) }
    {
        match order_or_cycle(&CausalGraph { run }) {
            Ok(listing) => Ok(Causal { run, listing }),
            Err(cycle) => Err(cycle),
        }
    }

    /// The run.
    pub fn run(&self) -> &'a E
        ensures { result.now ≡ self.now.run.now }
    {
        self.run
    }

    /// The events of the run in causal order.
    pub fn causal_order(&self) -> &[u16]
        ensures { Ordered (length (E.Execution.events self.now.run.now)) (PoRf (E.Execution.events self.now.run.now)) result.now }
    {
        &self.listing[..self.run.count()]
    }

    // Whether a single step of happens-before leads from a to b.
    fn steps<R: Rule>(&self, rule: &R, a: usize, b: usize) -> bool
        ensures { IsTrue result ↔ Step (R.Rule.pairs rule.now (E.Execution.events self.now.run.now)) (E.Execution.events self.now.run.now) a b }
    {
        po(self.run, a, b) || sw(rule, self.run, a, b)
    }

    // Fills the row of place k: with each event before it in causal order that is joined to it by a step come all those of its
    // own row. The nearest are looked at first, since their rows spare most of the questions.
    fn fill_row<R: Rule>(&self, rule: &R, k: usize, hb: &mut Relation)
        requires within { k < length (E.Execution.events self.now.run.now) }
        requires begun { Rows (Step (R.Rule.pairs rule.now (E.Execution.events self.now.run.now)) (E.Execution.events self.now.run.now)) (length (E.Execution.events self.now.run.now)) (event_at self.now.listing) k k (has hb.old) }
        ensures { Rows (Step (R.Rule.pairs rule.now (E.Execution.events self.now.run.now)) (E.Execution.events self.now.run.now)) (length (E.Execution.events self.now.run.now)) (event_at self.now.listing) (k + 1) (k + 1) (has hb.new) }
    {
        let e = usize::from(self.listing[k]);
        for i in 0..k {
            let p = usize::from(self.listing[k - 1 - i]);
            if hb.contains(p, e) || !self.steps(rule, p, e) {
                continue;
            }
            hb.insert(p, e);
            hb.absorb(e, p);
        }
    }

    /// Happens-before by a rule.
    pub fn happens_before<R: Rule>(&self, rule: &R) -> Relation
        ensures decides { (a b : ℕ) →
            IsTrue (has result a b) ↔ Hb (R.Rule.pairs rule.now (E.Execution.events self.now.run.now)) (E.Execution.events self.now.run.now) a b }
        ensures inside { Inside (E.Execution.events self.now.run.now) (λ a b. IsTrue (has result a b)) }
    {
        let mut hb = Relation::empty();
        for k in 0..self.run.count() {
            self.fill_row(rule, k, &mut hb);
        }
        hb
    }
}
