//! The axioms of a model, by number.
ghost use Rattle.std.specs.Prelude.{◌≡◌};
ghost use Rattle.models.specs.Numbers.{axiom_number};

use events::plain::Plain;

/// What a model asks of an order.
#[derive(Clone, Copy, PartialEq, Eq, Hash)]
pub enum Axiom {
    Causality,
    WriteCoherence,
    ReadCoherence,
    Atomicity,
}

impl Plain for Axiom {
    ghost plain = { record { clones = λ x y same. same; never_fails = λ x. tt } };
}

impl Axiom {
    /// From 1 to 4.
    pub fn number(&self) -> u8
        ensures { result ≡ axiom_number self.now }
    {
        match self {
            Axiom::Causality => 1,
            Axiom::WriteCoherence => 2,
            Axiom::ReadCoherence => 3,
            Axiom::Atomicity => 4,
        }
    }
}
