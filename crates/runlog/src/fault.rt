//! The refusals of the log layer. Each place is a byte of the log, counted from 0.
ghost use Rattle.events.specs.declared.refusal.Layer.TheVariants.{Log as LogLayer};
ghost use Rattle.std.specs.Prelude.{Some};
ghost use Rattle.std.specs.Fmt.{styled_text};
ghost use Rattle.events.specs.Text.{refused_text};
ghost use Rattle.runlog.specs.Faults.{fault_code};

use events::plain::Plain;
use events::refusal::{Layer, Refusal};
use events::text::Refused;
use std::error::Error;
use std::fmt;

#[derive(Clone, Copy, PartialEq, Eq, Hash)]
pub enum LogFault {
    /// What begins here is neither an event record nor an end record that counts right; or it follows the end record.
    Shape(usize),
    /// The event whose record begins here has a field out of its range, or a writer that it may not have.
    BadEvent(usize),
    /// The event whose record begins here is one more than a run may have.
    TooMany(usize),
}

impl Plain for LogFault {
    ghost plain = { record { clones = λ x y same. same; never_fails = λ x. tt } };
}

impl Refusal for LogFault {
    ghost code = { fault_code };

    ghost layer = { LogLayer };

    fn code(&self) -> (u8, usize) {
        match self {
            LogFault::Shape(at) => (10, *at),
            LogFault::BadEvent(at) => (11, *at),
            LogFault::TooMany(at) => (20, *at),
        }
    }

    fn layer(&self) -> Layer {
        Layer::Log
    }
}

impl fmt::Display for LogFault {
    ghost output = { λ f. Some (refused_text (fault_code f)) };

    ghost styled_output = { λ f s. Some (styled_text s (refused_text (fault_code f))) };

    fn fmt<W: fmt::Write>(&self, f: &mut fmt::Formatter<W>) -> fmt::Result {
        Refused(*self).fmt(f)
    }
}

// `Error` wants one. It shows what `Display` does.
impl fmt::Debug for LogFault {
    ghost debug_output = { λ f. Some (refused_text (fault_code f)) };

    fn fmt<W: fmt::Write>(&self, f: &mut fmt::Formatter<W>) -> fmt::Result {
        fmt::Display::fmt(self, f)
    }
}

impl Error for LogFault {}
