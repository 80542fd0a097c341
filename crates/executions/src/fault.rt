//! The refusals of the checker layer.
ghost use Rattle.events.specs.declared.refusal.Layer.TheVariants.{Checker};
ghost use Rattle.std.specs.Prelude.{Some};
ghost use Rattle.std.specs.Fmt.{styled_text};
ghost use Rattle.events.specs.Text.{refused_text};
ghost use Rattle.executions.specs.Faults.{fault_code};

use events::plain::Plain;
use events::refusal::{Layer, Refusal};
use events::text::Refused;
use std::error::Error;
use std::fmt;

#[derive(Clone, Copy, PartialEq, Eq, Hash)]
pub enum CheckerFault {
    /// An event number that is 0 or above the count: that number.
    NoEvent(usize),
    /// A model number that is not one of those from 1 to 5.
    NoModel,
    /// A buffer that has fewer places than a run may have events.
    ShortBuffer,
    /// Not an order of the stores.
    NotAnOrder,
    /// A run with updates, judged at whole scope: the lowest update.
    HasUpdates(usize),
}

impl Plain for CheckerFault {
    ghost plain = { record { clones = λ x y same. same; never_fails = λ x. tt } };
}

impl Refusal for CheckerFault {
    ghost code = { fault_code };

    ghost layer = { Checker };

    fn code(&self) -> (u8, usize) {
        match self {
            CheckerFault::NoEvent(i) => (5, *i),
            CheckerFault::NoModel => (8, 0),
            CheckerFault::ShortBuffer => (9, 0),
            CheckerFault::NotAnOrder => (12, 0),
            CheckerFault::HasUpdates(i) => (24, *i),
        }
    }

    fn layer(&self) -> Layer {
        Layer::Checker
    }
}

impl fmt::Display for CheckerFault {
    ghost output = { λ f. Some (refused_text (fault_code f)) };

    ghost styled_output = { λ f s. Some (styled_text s (refused_text (fault_code f))) };

    fn fmt<W: fmt::Write>(&self, f: &mut fmt::Formatter<W>) -> fmt::Result {
        Refused(*self).fmt(f)
    }
}

// `Error` wants one. It shows what `Display` does.
impl fmt::Debug for CheckerFault {
    ghost debug_output = { λ f. Some (refused_text (fault_code f)) };

    fn fmt<W: fmt::Write>(&self, f: &mut fmt::Formatter<W>) -> fmt::Result {
        fmt::Display::fmt(self, f)
    }
}

impl Error for CheckerFault {}
