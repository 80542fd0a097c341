//! The refusals of the record layer.
ghost use Rattle.events.specs.declared.refusal.Layer.TheVariants.{Record};
ghost use Rattle.std.specs.Prelude.{Some};
ghost use Rattle.std.specs.Fmt.{styled_text};
ghost use Rattle.events.specs.Text.{refused_text};
ghost use Rattle.recorder.specs.Faults.{fault_code};

use events::plain::Plain;
use events::raw::FieldFault;
use events::refusal::{Layer, Refusal};
use events::text::Refused;
use std::error::Error;
use std::fmt;

#[derive(Clone, Copy, PartialEq, Eq, Hash)]
pub enum RecordFault {
    /// The event to be noted has this field out of its range.
    Field(FieldFault),
    /// An event number that is 0 or above the count: that number.
    NoEvent(usize),
    /// The event to be given a writer is a write or a fence: that event.
    NotALoad(usize),
    /// The writer to be given does not fit: the load.
    Unfit(usize),
    /// The memory has fewer places than a run may have events.
    ShortMemory,
    /// The event to be noted is one more than a run may have.
    TooMany,
    /// There is no event to take back.
    NoEvents,
    /// The event to be taken back is the writer of others: the lowest such load.
    StillRead(usize),
    /// Loads have no writer yet: the lowest such load.
    NoWriter(usize),
    /// Places hold numbers that no calls leave there: the lowest such event.
    Damaged(usize),
}

impl Plain for RecordFault {
    ghost plain = { record { clones = λ x y same. same; never_fails = λ x. tt } };
}

impl Refusal for RecordFault {
    ghost code = { fault_code };

    ghost layer = { Record };

    fn code(&self) -> (u8, usize) {
        match self {
            RecordFault::Field(field) => (field.number(), 0),
            RecordFault::NoEvent(i) => (5, *i),
            RecordFault::NotALoad(i) => (6, *i),
            RecordFault::Unfit(i) => (7, *i),
            RecordFault::ShortMemory => (9, 0),
            RecordFault::TooMany => (20, 0),
            RecordFault::NoEvents => (21, 0),
            RecordFault::StillRead(i) => (22, *i),
            RecordFault::NoWriter(i) => (23, *i),
            RecordFault::Damaged(i) => (25, *i),
        }
    }

    fn layer(&self) -> Layer {
        Layer::Record
    }
}

impl fmt::Display for RecordFault {
    ghost output = { λ f. Some (refused_text (fault_code f)) };

    ghost styled_output = { λ f s. Some (styled_text s (refused_text (fault_code f))) };

    fn fmt<W: fmt::Write>(&self, f: &mut fmt::Formatter<W>) -> fmt::Result {
        Refused(*self).fmt(f)
    }
}

// `Error` wants one. It shows what `Display` does.
impl fmt::Debug for RecordFault {
    ghost debug_output = { λ f. Some (refused_text (fault_code f)) };

    fn fmt<W: fmt::Write>(&self, f: &mut fmt::Formatter<W>) -> fmt::Result {
        fmt::Display::fmt(self, f)
    }
}

impl Error for RecordFault {}

impl From<FieldFault> for RecordFault {
    ghost use Rattle.std.specs.Prelude.{◌≡◌};
    ghost use Rattle.recorder.specs.declared.fault.RecordFault.TheVariants.{Field};

    ghost from_gives = { λ f r. r ≡ Field f };

    fn from(field: FieldFault) -> Self {
        RecordFault::Field(field)
    }
}
