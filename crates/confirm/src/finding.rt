//! The answer of confirming an order.
ghost use Rattle.std.specs.Prelude.{◌≡◌};
ghost use Rattle.confirm.specs.Confirm.{finding_number};

use events::plain::Plain;
use models::axiom::Axiom;

/// What confirming an order finds.
#[derive(Clone, Copy, PartialEq, Eq)]
pub enum Finding {
    /// Every axiom holds.
    Passes,
    /// The first axiom, by number, that does not hold.
    Fails(Axiom),
}

impl Plain for Finding {
    ghost plain = { record { clones = λ x y same. same; never_fails = λ x. tt } };
}

impl Finding {
    /// 0 for an order that passes, else the number of the axiom.
    pub fn number(&self) -> u8
        ensures { result ≡ finding_number self.now }
    {
        match self {
            Finding::Passes => 0,
            Finding::Fails(axiom) => axiom.number(),
        }
    }
}
