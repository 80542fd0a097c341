//! What breaks read coherence at weak scope.
ghost use Rattle.std.specs.Prelude.{◌↔◌, IsTrue, MatchOption};
ghost use Rattle.events.specs.Lowest.{IsLowest};
ghost use Rattle.relation.specs.Pairs.{Pairs};
ghost use Rattle.verdicts.specs.Absent.{NoWeak};
ghost use Rattle.verdicts.specs.Steps.{Overwrites};
ghost use Rattle.judge.specs.Search.{NoneOverwrites, LowestWeak};

use executions::execution::Execution;
use executions::kinds::{is_store, location};
use executions::relations::writer;
use relation::relation::Relation;

// Whether w happens before the store v of its location, and that before r.
fn overwrites<E: Execution>(run: &E, hb: &Relation, w: usize, v: usize, r: usize) -> bool
    ensures { IsTrue result ↔ Overwrites (E.Execution.events run.now) (Pairs hb.now) w v r }
{
    hb.contains(w, v)
        && hb.contains(v, r)
        && is_store(run, v)
        && location(run, w) == location(run, v)
}

// The lowest store that comes in happens-before between the load r and its writer w.
fn overwriter<E: Execution>(run: &E, hb: &Relation, w: usize, r: usize) -> Option<usize>
    ensures { MatchOption result
        (NoneOverwrites (E.Execution.events run.now) (Pairs hb.now) w r)
        (λ v. IsLowest (λ u. Overwrites (E.Execution.events run.now) (Pairs hb.now) w u r) v) }
{
    for v in 1..run.count() + 1 {
        if overwrites(run, hb, w, v, r) {
            return Some(v);
        }
    }
    None
}

// A store, another of its location after it, and a load after that which reads from the first: of the lowest such load the lowest
// store between.
pub(crate) fn weak_violation<E: Execution>(run: &E, hb: &Relation) -> Option<(u16, u16, u16)>
    ensures { MatchOption result
        (NoWeak (E.Execution.events run.now) (Pairs hb.now))
        (λ t. LowestWeak (E.Execution.events run.now) (Pairs hb.now) t.0 t.1 t.2) }
{
    for r in 1..run.count() + 1 {
        let Some(w) = writer(run, r) else {
            continue;
        };
        if let Some(v) = overwriter(run, hb, w, r) {
            return Some((w as u16, v as u16, r as u16));
        }
    }
    None
}
