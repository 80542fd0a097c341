//! An execution that is borrowed.

use events::event::Event;
use executions::execution::Execution;
use executions::fault::CheckerFault;

/// An execution by reference, as an execution: so that the other views, which hold theirs by value, can be made of one that is
/// lent.
#[derive(Drop)]
pub struct Borrowed<'r, E> {
    pub run: &'r E,
}

impl<'r, E: Execution> Execution for Borrowed<'r, E> {
    ghost events = { λ v. E.Execution.events v.run.now };

    fn count(&self) -> usize {
        self.run.count()
    }

    fn event(&self, i: usize) -> Result<Event, CheckerFault> {
        self.run.event(i)
    }

    ghost full = { λ v. E.Execution.full v.run.now };
}
