//! The calls of a record as values, and their answers.

use crate::handed::Handed;
use events::event::Event;
use events::plain::Plain;
use executions::fault::CheckerFault;
use recorder::fault::RecordFault;

/// A call with its arguments.
#[derive(Clone, Copy, PartialEq, Eq)]
pub enum Call {
    Note {
        handed: Handed,
        thread: u8,
        kind: u8,
        mode: u8,
        location: u8,
    },
    Link {
        handed: Handed,
        event: usize,
        writer: usize,
    },
    Retract {
        handed: Handed,
    },
    Seal {
        handed: Handed,
    },
    Reopen,
    /// How many events does the sealed record have?
    Count,
    /// What is event i of the sealed record?
    Event(usize),
}

impl Plain for Call {
    ghost plain = { record { clones = λ x y same. same; never_fails = λ x. tt } };
}

#[derive(Clone, Copy, PartialEq, Eq)]
pub enum Answer {
    /// An event was noted, with this number.
    Noted(usize),
    /// Another call was obeyed.
    Done,
    Refused(RecordFault),
    /// The sealed record has so many events.
    Counted(usize),
    /// The sealed record shows this event.
    Shown(Event),
    /// The sealed record has no such event.
    NotShown(CheckerFault),
    /// The call is one that does not compile: of an open record while the record is sealed, or of a sealed one while it is open.
    Barred,
}

impl Plain for Answer {
    ghost plain = { record { clones = λ x y same. same; never_fails = λ x. tt } };
}

impl From<Result<usize, RecordFault>> for Answer {
    ghost use Rattle.std.specs.Prelude.{◌≡◌};
    ghost use Rattle.sessions.specs.Calls.{told_number};

    ghost from_gives = { λ r a. a ≡ told_number r };

    fn from(outcome: Result<usize, RecordFault>) -> Self {
        match outcome {
            Ok(number) => Answer::Noted(number),
            Err(fault) => Answer::Refused(fault),
        }
    }
}

impl From<Result<(), RecordFault>> for Answer {
    ghost use Rattle.std.specs.Prelude.{◌≡◌};
    ghost use Rattle.sessions.specs.Calls.{told};

    ghost from_gives = { λ r a. a ≡ told r };

    fn from(outcome: Result<(), RecordFault>) -> Self {
        match outcome {
            Ok(()) => Answer::Done,
            Err(fault) => Answer::Refused(fault),
        }
    }
}
