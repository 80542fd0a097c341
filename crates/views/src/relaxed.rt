//! The relaxed view of an execution.

use events::event::{Event, Mode};
use executions::execution::Execution;
use executions::fault::CheckerFault;

/// Any execution with every event relaxed.
#[derive(Drop)]
pub struct Relaxed<E> {
    pub run: E,
}

impl<E: Execution> Execution for Relaxed<E> {
    ghost use Rattle.views.specs.Views.{relaxed};
    ghost use Rattle.views.specs.Laws.{relaxed_full};

    ghost events = { λ v. relaxed (E.Execution.events v.run) };

    fn count(&self) -> usize {
        self.run.count()
    }

    fn event(&self, i: usize) -> Result<Event, CheckerFault> {
        let event = self.run.event(i)?;
        Ok(Event {
            mode: Mode::Relaxed,
            ..event
        })
    }

    ghost full = { λ v. relaxed_full (E.Execution.events v.run) (E.Execution.full v.run) };
}
