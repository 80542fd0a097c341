//! An execution: any form of a run that can be asked for its events.
ghost use Rattle.std.specs.Prelude.{◌≡◌, List, length};
ghost use Rattle.events.specs.Run.{FullRun};
ghost use Rattle.events.specs.declared.event.Event.{Event as EventOf};
ghost use Rattle.executions.specs.Asked.{Asked};

use crate::fault::CheckerFault;
use crate::iter::Iter;
use events::event::Event;

/// The meaning is the list of the events. A question changes nothing.
pub trait Execution {
    ghost events: { Self → List EventOf };

    fn count(&self) -> usize
        ensures { result ≡ length (events self.now) };

    /// Event number i, from 1 on.
    fn event(&self, i: usize) -> Result<Event, CheckerFault>
        ensures { Asked (events self.now) i result };

    // An implementation shows that its list is a full run.
    ghost full: { (x : Self) → FullRun (events x) };

    /// The events in order.
    final fn iter(&self) -> Iter<'_, Self>
    where
        Self: Sized,
        ensures { result ≡ events self.now }
    {
        Iter::new(self)
    }
}
