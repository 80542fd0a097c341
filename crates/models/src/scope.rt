//! How far a model orders the stores.

use events::plain::Plain;

/// At location scope write coherence speaks of the stores of each location for themselves. At whole scope it speaks of the orders of all
/// locations together with happens-before, and no longer of reads-from. At weak scope stores are not ordered.
#[derive(Clone, Copy, PartialEq, Eq, Hash)]
pub enum Scope {
    Location,
    Whole,
    Weak,
}

impl Plain for Scope {
    ghost plain = { record { clones = λ x y same. same; never_fails = λ x. tt } };
}
