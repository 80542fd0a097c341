//! The ways in which a run breaks a model.
ghost use Rattle.std.specs.Prelude.{◌≡◌};
ghost use Rattle.verdicts.specs.Numbers.{violation_number, step_count};

use events::plain::Plain;

/// What rules every order of a run out. The steps that show it stand in the caller's step buffer.
#[derive(Clone, Copy, PartialEq, Eq, Hash)]
pub enum Violation {
    /// So many different events, each joined to the next by program order or reads-from, and the last to the first.
    Causal(usize),
    /// Two updates that read from one writer, the lower number first.
    Twin(u16, u16),
    /// A store, a store of the same location that it happens before, and a load that the second happens before and that reads
    /// from the first.
    Weak(u16, u16, u16),
    /// A step from a store to one before it in its chain.
    Back,
    /// At this location so many steps through different chains, each from the chain that the one before leads to, and the first
    /// from the chain that the last leads to.
    Round(u8, usize),
    /// So many different events, each joined to the next by happens-before or a read step, and the last to the first.
    Whole(usize),
}

impl Plain for Violation {
    ghost plain = { record { clones = λ x y same. same; never_fails = λ x. tt } };
}

impl Violation {
    /// From 1 to 6: of which kind it is.
    pub fn number(&self) -> u8
        ensures { result ≡ violation_number self.now }
    {
        match self {
            Violation::Causal(_) => 1,
            Violation::Twin(_, _) => 2,
            Violation::Weak(_, _, _) => 3,
            Violation::Back => 4,
            Violation::Round(_, _) => 5,
            Violation::Whole(_) => 6,
        }
    }

    /// How many steps show it, from the first place of the step buffer.
    pub fn step_count(&self) -> usize
        ensures { result ≡ step_count self.now }
    {
        match self {
            Violation::Causal(length) | Violation::Round(_, length) | Violation::Whole(length) => {
                *length
            }
            Violation::Back => 1,
            Violation::Twin(_, _) | Violation::Weak(_, _, _) => 0,
        }
    }
}
