//! The strengthened view of an execution.
ghost use Rattle.std.specs.Prelude.{◌≡◌};
ghost use Rattle.views.specs.Views.{strongest};

use events::event::{Event, Kind, Mode};
use executions::execution::Execution;
use executions::fault::CheckerFault;

/// Any execution with every event in the strongest mode of its kind: reads acquire, writes release, updates and fences do both.
#[derive(Drop)]
pub struct Strengthened<E> {
    pub run: E,
}

// The strongest mode that an event of this kind may have.
fn strongest(kind: Kind) -> Mode
    ensures { result ≡ strongest kind }
{
    match kind {
        Kind::Read => Mode::Acquire,
        Kind::Write => Mode::Release,
        Kind::Update | Kind::Fence => Mode::AcquireRelease,
    }
}

impl<E: Execution> Execution for Strengthened<E> {
    ghost use Rattle.views.specs.Views.{strengthened};
    ghost use Rattle.views.specs.Laws.{strengthened_full};

    ghost events = { λ v. strengthened (E.Execution.events v.run) };

    fn count(&self) -> usize {
        self.run.count()
    }

    fn event(&self, i: usize) -> Result<Event, CheckerFault> {
        let event = self.run.event(i)?;
        Ok(Event {
            mode: strongest(event.kind),
            ..event
        })
    }

    ghost full = { λ v. strengthened_full (E.Execution.events v.run) (E.Execution.full v.run) };
}
