//! The events of an execution, one after another.
ghost use Rattle.std.specs.Prelude.{◌≡◌, ◌-◌, ◌≤◌, List, drop, length, IfSome, Some};
ghost use Rattle.std.specs.Iterator.{YieldsFirst, UpTo, item_count};
ghost use Rattle.std.specs.Iterator.SizeHint.{IsWithinCount};
ghost use Rattle.events.specs.declared.event.Event.{Event as EventOf};

use crate::execution::Execution;
use events::event::Event;
use std::marker::Model;

/// A contract sees the list of the events that are still to come.
// A type of its own with a number that it keeps, since an `impl Iterator` as the result of a trait's method is not proved
// yet.
#[derive(Drop)]
pub struct Iter<'a, E: Execution> {
    run: &'a E,
    next: usize,
}

impl<'a, E: Execution> Model for Iter<'a, E> {
    ghost Value = { List EventOf };

    ghost view = { λ it. drop (it.next - 1) (E.Execution.events it.run.now) };

    ghost invariant = { λ it. 1 ≤ it.next };
}

impl<'a, E: Execution> Iter<'a, E> {
    // All events of the run.
    pub(crate) fn new(run: &'a E) -> Iter<'a, E>
        ensures { result ≡ E.Execution.events run.now }
    {
        Iter { run, next: 1 }
    }
}

impl<'a, E: Execution> Iterator for Iter<'a, E> {
    type Item = Event;

    ghost next_gives = { YieldsFirst (λ rest. rest) };

    ghost remaining = { item_count (λ rest. rest) };

    fn next(&mut self) -> Option<Event> {
        let event = self.run.event(self.next).ok()?;
        self.next += 1;
        Some(event)
    }

    // The first two clauses are those of the trait.
    fn size_hint(&self) -> (usize, Option<usize>)
        ensures lower { IsWithinCount result.0 (item_count (λ rest. rest) self.now) }
        ensures upper { IfSome result.1 (UpTo (item_count (λ rest. rest) self.now)) }
        ensures exact { result ≡ (length self.now, Some (length self.now)) }
    {
        let left = self.run.count().saturating_sub(self.next - 1);
        (left, Some(left))
    }
}
