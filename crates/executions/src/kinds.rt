//! What event i of an execution is. A number outside the run is none of these, and has location 0 as a fence has.
ghost use Rattle.std.specs.Prelude.{◌≡◌, ◌↔◌, IsTrue};
ghost use Rattle.events.specs.Run.{at, Store, Update, Fence};

use crate::execution::Execution;
use events::event::Kind;

/// Whether event i is a store.
pub fn is_store<E: Execution>(x: &E, i: usize) -> bool
    ensures { IsTrue result ↔ Store (E.Execution.events x.now) i }
{
    x.event(i).is_ok_and(|event| event.kind.is_store())
}

/// Whether event i is an update.
pub fn is_update<E: Execution>(x: &E, i: usize) -> bool
    ensures { IsTrue result ↔ Update (E.Execution.events x.now) i }
{
    x.event(i).is_ok_and(|event| event.kind == Kind::Update)
}

/// Whether event i is a fence.
pub fn is_fence<E: Execution>(x: &E, i: usize) -> bool
    ensures { IsTrue result ↔ Fence (E.Execution.events x.now) i }
{
    x.event(i).is_ok_and(|event| event.kind == Kind::Fence)
}

/// The location that event i accesses, or 0.
pub fn location<E: Execution>(x: &E, i: usize) -> u8
    ensures { result ≡ (at (E.Execution.events x.now) i).location }
{
    match x.event(i) {
        Ok(event) => event.location,
        Err(_) => 0,
    }
}
