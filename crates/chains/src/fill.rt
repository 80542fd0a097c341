//! What the chains of a run are told by: twins, heads, and places in the causal order.
ghost use Rattle.std.specs.Prelude.{◌≡◌, ◌≤◌, ℕ, length, slice_index, MatchOption};
ghost use Rattle.events.specs.Limits.{max_events};
ghost use Rattle.events.specs.Graph.{PoRf};
ghost use Rattle.toposort.specs.Listing.{Ordered};
ghost use Rattle.verdicts.specs.Absent.{NoTwins};
ghost use Rattle.chains.specs.Numbers.{HeadsOf, NextHead, PlacesIn, OthersKept, EventNumbers};
ghost use Rattle.chains.specs.Twins.{LowestTwins};

use crate::chains::Numbers;
use events::limits::MAX_EVENTS;
use executions::execution::Execution;
use executions::kinds::{is_store, is_update};
use executions::relations::writer;

// The first two updates with one writer: the second is the lowest that can be, and the first comes before it.
pub(crate) fn twins<E: Execution>(run: &E) -> Option<(u16, u16)>
    ensures { MatchOption result
        (NoTwins (E.Execution.events run.now))
        (λ t. LowestTwins (E.Execution.events run.now) t.0 t.1) }
{
    // For each event the update that reads from it, among those that were looked at.
    let mut readers = [0; MAX_EVENTS + 1];
    for u in 1..run.count() + 1 {
        if !is_update(run, u) {
            continue;
        }
        let Some(w) = writer(run, u) else {
            continue;
        };
        if readers[w] != 0 {
            return Some((readers[w], u as u16));
        }
        readers[w] = u as u16;
    }
    None
}

// The head of the chain that event e is in, or else reads from, where that of its writer is known.
fn head<E: Execution>(run: &E, heads: &Numbers, e: usize) -> u16
    ensures { NextHead (E.Execution.events run.now) heads.now e result }
{
    match writer(run, e) {
        Some(w) => heads[w],
        None if is_store(run, e) => e as u16,
        None => 0,
    }
}

// Fills the heads in, along a causal order: a writer comes before what reads from it.
pub(crate) fn fill_heads<E: Execution>(run: &E, order: &[u16], heads: &mut Numbers)
    requires ordered { Ordered (length (E.Execution.events run.now)) (PoRf (E.Execution.events run.now)) order.now }
    requires none { (x : ℕ) → slice_index heads.old x ≡ 0 }
    ensures { HeadsOf (E.Execution.events run.now) heads.new }
{
    for k in 0..order.len() {
        let e = usize::from(order[k]);
        heads[e] = head(run, heads, e);
    }
}

// Puts into the place of each number of the order where it stands there. The other places stay as they were.
pub(crate) fn fill_places(order: &[u16], places: &mut Numbers)
    requires { EventNumbers order.now }
    ensures placed { PlacesIn (length order.now) order.now places.new }
    ensures others { OthersKept (length order.now) order.now places.old places.new }
{
    for k in 0..order.len() {
        places[usize::from(order[k])] = k as u16;
    }
}
