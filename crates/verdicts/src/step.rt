//! A step from one event to another, as it stands in a step buffer.
ghost use Rattle.std.specs.Prelude.{◌≡◌};
ghost use Rattle.verdicts.specs.Numbers.{sort_number, sort_load};

use events::plain::Plain;

/// Why a step leads from one event to another.
#[derive(Clone, Copy, PartialEq, Eq, Hash)]
pub enum Sort {
    /// Program order.
    Po,
    /// Reads-from.
    Rf,
    /// Between stores: the first reaches the second by an optional reads-from, then an optional happens-before.
    Before,
    /// Between stores: the first reaches this load by an optional reads-from, then happens-before, and the load reads from the second.
    Read(u16),
    /// Happens-before.
    Hb,
}

impl Plain for Sort {
    ghost plain = { record { clones = λ x y same. same; never_fails = λ x. tt } };
}

impl Sort {
    /// From 1 to 5.
    pub fn number(&self) -> u8
        ensures { result ≡ sort_number self.now }
    {
        match self {
            Sort::Po => 1,
            Sort::Rf => 2,
            Sort::Before => 3,
            Sort::Read(_) => 4,
            Sort::Hb => 5,
        }
    }

    /// The load of a read step, else 0.
    pub fn load(&self) -> u16
        ensures { result ≡ sort_load self.now }
    {
        match self {
            Sort::Read(load) => *load,
            Sort::Po | Sort::Rf | Sort::Before | Sort::Hb => 0,
        }
    }
}

/// A step from one event to another.
#[derive(Clone, Copy, PartialEq, Eq, Hash)]
pub struct Step {
    pub from: u16,
    pub to: u16,
    pub sort: Sort,
}

impl Plain for Step {
    ghost plain = { record { clones = λ x y same. same; never_fails = λ x. tt } };
}
