//! Happens-before within one location, lifted from events to numbers that are kept for them.
ghost use Rattle.std.specs.Prelude.{◌≡◌, ◌↔◌, ◌⊎◌, ℕ, IsTrue, slice_index, MatchOption};
ghost use Rattle.events.specs.Lowest.{IsLowest, IsLowestPair};
ghost use Rattle.relation.specs.Pairs.{has, Pairs};
ghost use Rattle.chains.specs.Lift.{KeptFor, LiftsBy, LiftsFrom, Lifts};

use crate::chains::Numbers;
use executions::execution::Execution;
use executions::kinds::location;
use relation::relation::Relation;

// For each number the one that is kept for it in `from`, or in `to`.
#[derive(Drop)]
pub(crate) struct Lift<'a, E: Execution> {
    pub(crate) run: &'a E,
    pub(crate) hb: &'a Relation,
    pub(crate) from: &'a Numbers,
    pub(crate) to: &'a Numbers,
    ghost from_fits: { KeptFor (E.Execution.events run.now) from.now },
    ghost to_fits: { KeptFor (E.Execution.events run.now) to.now },
}

// The number that is kept for x.
pub(crate) fn kept(numbers: &Numbers, x: usize) -> usize
    ensures { result ≡ slice_index numbers.now x }
{
    numbers.get(x).copied().map_or(0, usize::from)
}

impl<'a, E: Execution> Lift<'a, E> {
    // Whether x before y leads from a to b.
    fn lifts(&self, x: usize, y: usize, a: usize, b: usize) -> bool
        ensures { IsTrue result ↔ LiftsBy (E.Execution.events self.now.run.now) (Pairs self.now.hb.now) self.now.from.now self.now.to.now x y a b }
    {
        self.hb.contains(x, y)
            && location(self.run, x) == location(self.run, y)
            && kept(self.from, x) == a
            && kept(self.to, y) == b
            && 1 <= a
            && 1 <= b
            && a != b
    }

    // Adds the pairs to which x leads.
    fn add_from(&self, x: usize, edges: &mut Relation)
        ensures { (a b : ℕ) → IsTrue (has edges.new a b) ↔ (IsTrue (has edges.old a b) ⊎ LiftsFrom (E.Execution.events self.now.run.now) (Pairs self.now.hb.now) self.now.from.now self.now.to.now x a b) }
    {
        let a = kept(self.from, x);
        for y in 1..self.run.count() + 1 {
            let b = kept(self.to, y);
            if self.lifts(x, y, a, b) {
                edges.insert(a, b);
            }
        }
    }

    // Adds all pairs to which some event leads.
    pub(crate) fn add(&self, edges: &mut Relation)
        ensures { (a b : ℕ) → IsTrue (has edges.new a b) ↔ (IsTrue (has edges.old a b) ⊎ Lifts (E.Execution.events self.now.run.now) (Pairs self.now.hb.now) self.now.from.now self.now.to.now a b) }
    {
        for x in 1..self.run.count() + 1 {
            self.add_from(x, edges);
        }
    }

    // The lowest event before which x leads from a to b.
    fn find_from(&self, x: usize, a: usize, b: usize) -> Option<usize>
        ensures { MatchOption result
            (¬ LiftsFrom (E.Execution.events self.now.run.now) (Pairs self.now.hb.now) self.now.from.now self.now.to.now x a b)
            (λ y. IsLowest (λ z. LiftsBy (E.Execution.events self.now.run.now) (Pairs self.now.hb.now) self.now.from.now self.now.to.now x z a b) y) }
    {
        for y in 1..self.run.count() + 1 {
            if self.lifts(x, y, a, b) {
                return Some(y);
            }
        }
        None
    }

    // The lowest two events of which the first, before the second, leads from a to b.
    pub(crate) fn find(&self, a: usize, b: usize) -> Option<(usize, usize)>
        ensures { MatchOption result
            (¬ Lifts (E.Execution.events self.now.run.now) (Pairs self.now.hb.now) self.now.from.now self.now.to.now a b)
            (λ p. IsLowestPair (λ x y. LiftsBy (E.Execution.events self.now.run.now) (Pairs self.now.hb.now) self.now.from.now self.now.to.now x y a b) p.0 p.1) }
    {
        for x in 1..self.run.count() + 1 {
            // Each event has one number, so that the searches for all the steps of a cycle look at each two events at most once.
            if kept(self.from, x) != a {
                continue;
            }
            if let Some(y) = self.find_from(x, a, b) {
                return Some((x, y));
            }
        }
        None
    }
}
