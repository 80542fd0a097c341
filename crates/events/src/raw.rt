//! An event as plain numbers, and how an event is made of them.
ghost use Rattle.std.specs.Prelude.{◌≡◌};
ghost use Rattle.events.specs.Raw.{fault_number, in_locations, KindOf, ModeOf, Checks};

use crate::event::{Event, Kind, Mode};
use crate::limits::{MAX_LOCATIONS, MAX_THREADS};
use crate::plain::Plain;

/// An event as logs and records hold it: any numbers at all.
#[derive(Clone, Copy, PartialEq, Eq, Hash)]
pub struct RawEvent {
    pub thread: u8,
    pub kind: u8,
    pub mode: u8,
    pub location: u8,
    pub writer: u16,
}

impl Plain for RawEvent {
    ghost plain = { record { clones = λ x y same. same; never_fails = λ x. tt } };
}

/// The field that rules the numbers out. Each has a number of its own, though a log does not tell them apart.
#[derive(Clone, Copy, PartialEq, Eq, Hash)]
pub enum FieldFault {
    Thread,
    Kind,
    Mode,
    Location,
}

impl Plain for FieldFault {
    ghost plain = { record { clones = λ x y same. same; never_fails = λ x. tt } };
}

impl FieldFault {
    pub fn number(&self) -> u8
        ensures { result ≡ fault_number self.now }
    {
        match self {
            FieldFault::Thread => 1,
            FieldFault::Kind => 2,
            FieldFault::Mode => 3,
            FieldFault::Location => 4,
        }
    }
}

/// The kind with this number, if there is one.
impl TryFrom<u8> for Kind {
    type Error = FieldFault;

    ghost try_from_gives = { KindOf };

    fn try_from(n: u8) -> Result<Self, FieldFault> {
        match n {
            1 => Ok(Kind::Read),
            2 => Ok(Kind::Write),
            3 => Ok(Kind::Update),
            4 => Ok(Kind::Fence),
            _ => Err(FieldFault::Kind),
        }
    }
}

/// The mode with this number, if there is one.
impl TryFrom<u8> for Mode {
    type Error = FieldFault;

    ghost try_from_gives = { ModeOf };

    fn try_from(n: u8) -> Result<Self, FieldFault> {
        match n {
            0 => Ok(Mode::Relaxed),
            1 => Ok(Mode::Acquire),
            2 => Ok(Mode::Release),
            3 => Ok(Mode::AcquireRelease),
            _ => Err(FieldFault::Mode),
        }
    }
}

// Whether an event of this kind may have this location.
fn has_location(kind: Kind, location: u8) -> bool
    ensures { result ≡ in_locations kind location }
{
    if kind.is_access() {
        (1..=MAX_LOCATIONS).contains(&location)
    } else {
        // The number of a run's definition for no location.
        location == 0
    }
}

/// The event with these numbers, or the first of thread, kind, mode and location that is out of its range. The writer is
/// taken as it is: whether it fits is a question to the whole run.
impl TryFrom<RawEvent> for Event {
    type Error = FieldFault;

    ghost try_from_gives = { Checks };

    fn try_from(x: RawEvent) -> Result<Self, FieldFault> {
        if !(1..=MAX_THREADS).contains(&x.thread) {
            return Err(FieldFault::Thread);
        }
        let kind = Kind::try_from(x.kind)?;
        let mode = Mode::try_from(x.mode)?;
        if !kind.allows(mode) {
            return Err(FieldFault::Mode);
        }
        if !has_location(kind, x.location) {
            return Err(FieldFault::Location);
        }
        Ok(Event {
            thread: x.thread,
            kind,
            mode,
            location: x.location,
            writer: x.writer,
        })
    }
}
