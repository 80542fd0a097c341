//! Stores, laid location by location.
ghost use Rattle.std.specs.Prelude.{◌≤◌, ℕ, ◌<◌, length, replicate, slice_index};
ghost use Rattle.events.specs.Limits.{max_events};
ghost use Rattle.toposort.specs.Answer.{Writes};
ghost use Rattle.laying.specs.Gathers.{Different};
ghost use Rattle.laying.specs.Stores.{StoreLocations, AllLocations, ByLocation};

use crate::gather::gather;
use chains::chains::Numbers;
use events::limits::{MAX_EVENTS, MAX_LOCATIONS};
use executions::execution::Execution;
use executions::kinds::{is_store, location};

const LOCATION_COUNT: usize = MAX_LOCATIONS as usize;

/// Stores in the order in which they are laid: so many in the first places, with 0 in the others.
#[derive(Drop)]
pub struct Laid {
    pub stores: [u16; MAX_EVENTS],
    pub count: usize,
}

// The location of each store, and 0 for every other number.
fn store_locations<E: Execution>(run: &E) -> Numbers
    ensures { StoreLocations (E.Execution.events run.now) result }
{
    let mut locations = [0; MAX_EVENTS + 1];
    for x in 1..run.count() + 1 {
        if is_store(run, x) {
            locations[x] = u16::from(location(run, x));
        }
    }
    locations
}

// Every location, rising.
fn all_locations() -> [u16; LOCATION_COUNT]
    ensures { AllLocations result }
{
    let mut locations = [0; LOCATION_COUNT];
    for i in 0..LOCATION_COUNT {
        locations[i] = i as u16 + 1;
    }
    locations
}

// Lays the stores among the members, location by rising location, those of one location as `members` lists them.
pub(crate) fn lay_stores<E: Execution>(run: &E, members: &[u16]) -> Laid
    requires few { length members.now ≤ max_events }
    requires fits { (i : ℕ) → i < length members.now → slice_index members.now i ≤ max_events }
    requires once { Different members.now }
    ensures few { result.count ≤ length members.now }
    ensures lays { Writes result.count (ByLocation (E.Execution.events run.now) members.now) (replicate max_events 0) result.stores }
{
    let mut stores = [0; MAX_EVENTS];
    let count = gather(
        members,
        &store_locations(run),
        &all_locations(),
        &mut stores,
    );
    Laid { stores, count }
}
