//! The read steps of a run.
ghost use Rattle.std.specs.Prelude.{◌≡◌, ◌↔◌, ℕ, IsTrue, slice_index, MatchOption};
ghost use Rattle.events.specs.Graph.{Rf};
ghost use Rattle.events.specs.Lowest.{IsLowest};
ghost use Rattle.events.specs.Relations.{◌⨾◌, ◌？};
ghost use Rattle.relation.specs.Pairs.{has, Pairs};
ghost use Rattle.verdicts.specs.Steps.{ReadStep, ReadSteps};
ghost use Rattle.chains.specs.Numbers.{StoreNumbers, WriterNumbers};

use crate::chains::Numbers;
use crate::lift::Lift;
use events::limits::MAX_EVENTS;
use executions::execution::Execution;
use executions::kinds::{is_store, location};
use executions::relations::{rf, writer};
use relation::relation::Relation;

/// A run whose read steps are wanted.
#[derive(Drop)]
pub struct Reads<'a, E: Execution> {
    run: &'a E,
    // For each store itself.
    stores: Numbers,
    // For each load its writer.
    writers: Numbers,
    ghost of_stores: { StoreNumbers (E.Execution.events run.now) stores },
    ghost of_writers: { WriterNumbers (E.Execution.events run.now) writers },
}

// Keeps each store for itself.
fn fill_stores<E: Execution>(run: &E, stores: &mut Numbers)
    requires { (x : ℕ) → slice_index stores.old x ≡ 0 }
    ensures { StoreNumbers (E.Execution.events run.now) stores.new }
{
    for x in 1..run.count() + 1 {
        if is_store(run, x) {
            stores[x] = x as u16;
        }
    }
}

// Keeps for each load its writer.
fn fill_writers<E: Execution>(run: &E, writers: &mut Numbers)
    requires { (x : ℕ) → slice_index writers.old x ≡ 0 }
    ensures { WriterNumbers (E.Execution.events run.now) writers.new }
{
    for x in 1..run.count() + 1 {
        if let Some(w) = writer(run, x) {
            writers[x] = w as u16;
        }
    }
}

// Whether a, or a load that reads from it, happens before r.
fn reaches<E: Execution>(run: &E, hb: &Relation, a: usize, r: usize) -> bool
    ensures { IsTrue result ↔ (Rf (E.Execution.events run.now) ？ ⨾ Pairs hb.now) a r }
{
    if hb.contains(a, r) {
        return true;
    }
    for x in 1..run.count() + 1 {
        if rf(run, a, x) && hb.contains(x, r) {
            return true;
        }
    }
    false
}

// Whether a read step leads from a to b through the load r. Each load reads from one store, so that the searches for all the steps
// of a cycle look at each two events at most once.
fn is_read_step<E: Execution>(run: &E, hb: &Relation, r: usize, a: usize, b: usize) -> bool
    ensures { IsTrue result ↔ ReadStep (E.Execution.events run.now) (Pairs hb.now) r a b }
{
    rf(run, b, r)
        && is_store(run, a)
        && is_store(run, b)
        && location(run, a) == location(run, b)
        && a != b
        && reaches(run, hb, a, r)
}

impl<'a, E: Execution> Reads<'a, E> {
    /// Those of this run.
    pub fn of(run: &'a E) -> Reads<'a, E>
        ensures { result.run.now ≡ run.now }
    {
        let mut stores = [0; MAX_EVENTS + 1];
        fill_stores(run, &mut stores);
        let mut writers = [0; MAX_EVENTS + 1];
        fill_writers(run, &mut writers);
        Reads {
            run,
            stores,
            writers,
        }
    }

    /// The run.
    pub fn run(&self) -> &'a E
        ensures { result.now ≡ self.now.run.now }
    {
        self.run
    }

    /// Which stores a read step leads between.
    pub fn steps(&self, hb: &Relation) -> Relation
        ensures { (a b : ℕ) → IsTrue (has result a b) ↔ ReadSteps (E.Execution.events self.now.run.now) (Pairs hb.now) a b }
    {
        let mut steps = Relation::empty();
        let stored = Lift {
            run: self.run,
            hb,
            from: &self.stores,
            to: &self.writers,
        };
        stored.add(&mut steps);
        let read = Lift {
            run: self.run,
            hb,
            from: &self.writers,
            to: &self.writers,
        };
        read.add(&mut steps);
        steps
    }

    /// The lowest load through which a read step leads from a to b.
    pub fn load(&self, hb: &Relation, a: usize, b: usize) -> Option<usize>
        ensures { MatchOption result
            (¬ ReadSteps (E.Execution.events self.now.run.now) (Pairs hb.now) a b)
            (λ r. IsLowest (λ l. ReadStep (E.Execution.events self.now.run.now) (Pairs hb.now) l a b) r) }
    {
        for r in 1..self.run.count() + 1 {
            if is_read_step(self.run, hb, r, a, b) {
                return Some(r);
            }
        }
        None
    }
}
