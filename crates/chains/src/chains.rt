//! The chains of a run.
ghost use Rattle.std.specs.Prelude.{◌≡◌, length, MatchResult};
ghost use Rattle.events.specs.Graph.{PoRf};
ghost use Rattle.toposort.specs.Listing.{Ordered};
ghost use Rattle.verdicts.specs.Absent.{NoTwins};
ghost use Rattle.chains.specs.Numbers.{HeadsOf, PlacesIn};
ghost use Rattle.chains.specs.Twins.{LowestTwins};

use crate::fill::{fill_heads, fill_places, twins};
use causality::causal::Causal;
use events::limits::MAX_EVENTS;
use executions::execution::Execution;

/// For each number of an event another number, or 0. No event has number 0.
pub type Numbers = [u16; MAX_EVENTS + 1];

/// A causal run in which no two updates share a writer, so that reads-from joins its stores into chains.
#[derive(Drop)]
pub struct Chains<'a, E: Execution> {
    pub(crate) run: &'a E,
    // The events in causal order.
    pub(crate) order: &'a [u16],
    // For each load and store the head of the chain that it reads from or is in.
    pub(crate) heads: Numbers,
    // For each event its place in the causal order.
    pub(crate) places: Numbers,
    ghost ordered: { Ordered (length (E.Execution.events run.now)) (PoRf (E.Execution.events run.now)) order.now },
    ghost single: { NoTwins (E.Execution.events run.now) },
    ghost headed: { HeadsOf (E.Execution.events run.now) heads },
    ghost placed: { PlacesIn (length (E.Execution.events run.now)) order.now places },
}

impl<'a, E: Execution> Chains<'a, E> {
    /// The chains of a run, or the first two updates with one writer: the second is the lowest that can be, and the first comes
    /// before it.
    pub fn of(causal: &'a Causal<'a, E>) -> Result<Chains<'a, E>, (u16, u16)>
        ensures { MatchResult result
            (λ c. (c.run.now ≡ causal.now.run.now) × NoTwins (E.Execution.events causal.now.run.now))
            (λ t. LowestTwins (E.Execution.events causal.now.run.now) t.0 t.1) }
    {
        let run = causal.run();
        let order = causal.causal_order();
        if let Some(twins) = twins(run) {
            return Err(twins);
        }
        let mut heads = [0; MAX_EVENTS + 1];
        fill_heads(run, order, &mut heads);
        let mut places = [0; MAX_EVENTS + 1];
        fill_places(order, &mut places);
        Ok(Chains {
            run,
            order,
            heads,
            places,
        })
    }

    /// The run.
    pub fn run(&self) -> &'a E
        ensures same { result.now ≡ self.now.run.now }
        ensures single { NoTwins (E.Execution.events self.now.run.now) }
    {
        self.run
    }

    /// The events of the run in causal order.
    pub fn causal_order(&self) -> &'a [u16]
        ensures { Ordered (length (E.Execution.events self.now.run.now)) (PoRf (E.Execution.events self.now.run.now)) result.now }
    {
        self.order
    }

    /// For each load and store the head of the chain that it reads from or is in, and 0 for every other number.
    pub fn heads(&self) -> &Numbers
        ensures { HeadsOf (E.Execution.events self.now.run.now) result.now }
    {
        &self.heads
    }
}
