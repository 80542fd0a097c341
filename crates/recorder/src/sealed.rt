//! A sealed record: a full run in the caller's memory, which it holds for reading.
ghost use Rattle.events.specs.Run.{FullRun};
ghost use Rattle.recorder.specs.Places.{events_of};

use crate::held::Held;
use crate::opened::OpenRecord;
use events::event::Event;
use events::raw::RawEvent;
use executions::execution::Execution;
use executions::fault::CheckerFault;

/// A record that is an execution. Nothing can be added to it before it is reopened.
#[derive(Drop)]
pub struct SealedRecord<'m> {
    // The places of its events, and no more of the memory.
    pub(crate) places: &'m [RawEvent],
    ghost full: { FullRun (events_of places.now) },
}

impl<'m> SealedRecord<'m> {
    ghost use Rattle.std.specs.Prelude.{◌≡◌, [], length};
    ghost use Rattle.recorder.specs.Sealing.{run_of};

    /// The run without events: what a caller holds before a record is sealed into its place.
    pub fn empty() -> SealedRecord<'m>
        ensures { run_of result ≡ [] }
    {
        SealedRecord { places: &[] }
    }

    /// The record open again. Its events still lie in the memory that it was sealed over.
    pub fn reopen(self) -> OpenRecord
        ensures { result ≡ length (run_of self.entry) }
    {
        OpenRecord {
            count: self.places.len(),
        }
    }

    fn held(&self) -> Held<'m>
        ensures { result ≡ run_of self.now }
    {
        Held {
            places: self.places,
        }
    }
}

impl<'m> Execution for SealedRecord<'m> {
    ghost use Rattle.recorder.specs.Sealing.{run_of};

    ghost events = { run_of };

    fn count(&self) -> usize {
        self.held().count()
    }

    fn event(&self, i: usize) -> Result<Event, CheckerFault> {
        if !(1..=self.count()).contains(&i) {
            return Err(CheckerFault::NoEvent(i));
        }
        Ok(self.held().event(i))
    }

    ghost full = { λ s. s.full };
}
