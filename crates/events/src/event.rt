//! An event of a run: one atomic access of a thread, or a fence.
ghost use Rattle.std.specs.Prelude.{◌≡◌};
ghost use Rattle.events.specs.Events.{is_load, is_store, is_access, acquires, releases, allowed, writer_of, fitting};

use crate::plain::Plain;

/// What an event does. An update is a successful read-modify-write; a failed one is a read.
#[derive(Clone, Copy, PartialEq, Eq, Hash)]
pub enum Kind {
    Read,
    Write,
    Update,
    Fence,
}

impl Plain for Kind {
    ghost plain = { record { clones = λ x y same. same; never_fails = λ x. tt } };
}

/// How an event is ordered with others.
#[derive(Clone, Copy, PartialEq, Eq, Hash)]
pub enum Mode {
    Relaxed,
    Acquire,
    Release,
    AcquireRelease,
}

impl Plain for Mode {
    ghost plain = { record { clones = λ x y same. same; never_fails = λ x. tt } };
}

/// The writer is the number of the store that a load reads from, and 0 where there is none.
// Writer and location stay the numbers of a run's definition, with 0 for none; `reads_from` gives the writer as an `Option`.
// One struct `Event<K = Kind, M = Mode>` would serve `RawEvent` too, but be no plainer: each impl, derive and definition
// over events would have two parameters more.
#[derive(Clone, Copy, PartialEq, Eq, Hash)]
pub struct Event {
    pub thread: u8,
    pub kind: Kind,
    pub mode: Mode,
    pub location: u8,
    pub writer: u16,
}

impl Plain for Event {
    ghost plain = { record { clones = λ x y same. same; never_fails = λ x. tt } };
}

// A method for each word that the memory models use: `kind.is_among(&LOADS)` in place of each would be no plainer.
impl Kind {
    /// Reads and updates are loads.
    pub fn is_load(&self) -> bool
        ensures { result ≡ is_load self.now }
    {
        matches!(self, Kind::Read | Kind::Update)
    }

    /// Writes and updates are stores.
    pub fn is_store(&self) -> bool
        ensures { result ≡ is_store self.now }
    {
        matches!(self, Kind::Write | Kind::Update)
    }

    /// Everything but a fence reads or writes a location.
    pub fn is_access(&self) -> bool
        ensures { result ≡ is_access self.now }
    {
        *self != Kind::Fence
    }

    /// Whether an event of this kind may have this mode.
    pub fn allows(&self, mode: Mode) -> bool
        ensures { result ≡ allowed self.now mode }
    {
        match self {
            Kind::Read => !mode.releases(),
            Kind::Write => !mode.acquires(),
            Kind::Update | Kind::Fence => true,
        }
    }
}

// As of a kind, a method for each word.
impl Mode {
    /// Acquire, or stronger.
    pub fn acquires(&self) -> bool
        ensures { result ≡ acquires self.now }
    {
        matches!(self, Mode::Acquire | Mode::AcquireRelease)
    }

    /// Release, or stronger.
    pub fn releases(&self) -> bool
        ensures { result ≡ releases self.now }
    {
        matches!(self, Mode::Release | Mode::AcquireRelease)
    }
}

impl Event {
    /// The number of the event that this one reads from; the stored number 0 means that there is none.
    pub fn reads_from(&self) -> Option<u16>
        ensures { result ≡ writer_of self.now }
    {
        if self.writer == 0 {
            None
        } else {
            Some(self.writer)
        }
    }

    /// Whether this event, whose number is i, can be what `load`, whose number is r, reads from.
    pub fn fits(&self, i: usize, load: &Event, r: usize) -> bool
        ensures { result ≡ fitting self.now i load.now r }
    {
        i != r && self.kind.is_store() && self.location == load.location
    }
}
