//! An order of a run's stores, with the place of each event in it.
ghost use Rattle.std.specs.Prelude.{◌≡◌, ◌↔◌, ◌<◌, ℕ, IsTrue, length, slice_index, MatchBool, MatchOption};
ghost use Rattle.models.specs.Orders.{ListsStores, IsOrder};
ghost use Rattle.confirm.specs.Places.{PlacesOf, MayFollow, AllPlaced, PlacesIf};

use events::limits::MAX_EVENTS;
use executions::execution::Execution;
use executions::kinds::{is_store, location};
use models::scope::Scope;

// For each event number its place in the order, counted from 1, and 0 for what is not in it.
type Places = [usize; MAX_EVENTS + 1];

/// An order, and the run whose stores it orders.
#[derive(Drop)]
pub(crate) struct Candidate<'a, E: Execution> {
    pub(crate) run: &'a E,
    pub(crate) order: &'a [u16],
    places: Places,
    ghost placed: { PlacesOf (E.Execution.events run.now) order.now (length order.now) places },
}

// Whether the entry at place i may follow those before it.
fn may_follow<E: Execution>(run: &E, order: &[u16], places: &Places, i: usize) -> bool
    requires { i < length order.now }
    ensures { IsTrue result ↔ MayFollow (E.Execution.events run.now) order.now places.now i }
{
    let w = usize::from(order[i]);
    is_store(run, w)
        && places[w] == 0
        && (i == 0 || location(run, usize::from(order[i - 1])) <= location(run, w))
}

// Puts every entry of the order in its place, and answers whether each may follow those before it.
fn place_entries<E: Execution>(run: &E, order: &[u16], places: &mut Places) -> bool
    requires { (e : ℕ) → slice_index places.old e ≡ 0 }
    ensures { MatchBool result (PlacesOf (E.Execution.events run.now) order.now (length order.now) places.new) (¬ ListsStores (E.Execution.events run.now) order.now) }
{
    for i in 0..order.len() {
        if !may_follow(run, order, places, i) {
            return false;
        }
        places[usize::from(order[i])] = i + 1;
    }
    true
}

// Whether every store has a place.
fn all_placed<E: Execution>(run: &E, places: &Places) -> bool
    ensures { IsTrue result ↔ AllPlaced (E.Execution.events run.now) places.now }
{
    for w in 1..run.count() + 1 {
        if is_store(run, w) && places[w] == 0 {
            return false;
        }
    }
    true
}

// Puts the entries of an order in their places, and answers whether it is one.
fn place_order<E: Execution>(run: &E, scope: Scope, order: &[u16], places: &mut Places) -> bool
    requires { (e : ℕ) → slice_index places.old e ≡ 0 }
    ensures { PlacesIf result scope (E.Execution.events run.now) order.now places.new }
{
    match scope {
        Scope::Location | Scope::Whole => {
            place_entries(run, order, places) && all_placed(run, places)
        }
        Scope::Weak => order.is_empty(),
    }
}

impl<'a, E: Execution> Candidate<'a, E> {
    /// The order, if it is one at this scope.
    pub(crate) fn at(scope: Scope, run: &'a E, order: &'a [u16]) -> Option<Candidate<'a, E>>
        ensures { MatchOption result
            (¬ IsOrder scope (E.Execution.events run.now) order.now)
            (λ c. (c.run.now ≡ run.now) × (c.order.now ≡ order.now) × IsOrder scope (E.Execution.events run.now) order.now) }
    {
        let mut places = [0; MAX_EVENTS + 1];
        if place_order(run, scope, order, &mut places) {
            Some(Candidate { run, order, places })
        } else {
            None
        }
    }

    /// The place of event e in the order, counted from 1, or 0.
    pub(crate) fn place(&self, e: usize) -> usize
        ensures { result ≡ slice_index self.now.places e }
    {
        self.places.get(e).copied().unwrap_or(0)
    }
}
