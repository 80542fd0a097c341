//! The two relations that every execution comes with: program order and reads-from. Besides the answer, the contracts of `po` and
//! `rf` have a theorem about the relation, in a clause that does not look at the answer.
ghost use Rattle.std.specs.Prelude.{◌↔◌, IsTrue};
ghost use Rattle.events.specs.Graph.{Po, Rf, WriterOf, PoOrders, RfReads};

use crate::execution::Execution;

/// Whether a comes before b in program order. No pair with a number outside the run does.
pub fn po<E: Execution>(x: &E, a: usize, b: usize) -> bool
    ensures decides { IsTrue result ↔ Po (E.Execution.events x.now) a b }
    ensures orders { PoOrders (E.Execution.events x.now) }
{
    match (x.event(a), x.event(b)) {
        (Ok(first), Ok(second)) => a < b && first.thread == second.thread,
        _ => false,
    }
}

/// Whether r reads from w. No pair with a number outside the run does.
pub fn rf<E: Execution>(x: &E, w: usize, r: usize) -> bool
    ensures decides { IsTrue result ↔ Rf (E.Execution.events x.now) w r }
    ensures reads { RfReads (E.Execution.events x.now) }
{
    // The stored number: 0 is that of no event, so no `Option` of it is asked for.
    x.event(r).is_ok_and(|load| load.kind.is_load() && usize::from(load.writer) == w)
}

/// The event that r reads from, if r is a load.
pub fn writer<E: Execution>(x: &E, r: usize) -> Option<usize>
    ensures { WriterOf (E.Execution.events x.now) r result }
{
    let Ok(load) = x.event(r) else {
        return None;
    };
    Some(usize::from(load.reads_from()?))
}
