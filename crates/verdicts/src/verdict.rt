//! The answer of judging a run.
ghost use Rattle.std.specs.Prelude.{◌↔◌, IsTrue};
ghost use Rattle.verdicts.specs.Numbers.{IsConsistent};

use crate::violation::Violation;
use events::plain::Plain;

/// What judging a run comes to.
#[derive(Clone, Copy, PartialEq, Eq)]
pub enum Verdict {
    /// Some order satisfies the rule: so many stores stand at the head of the order buffer, none at weak scope.
    Consistent(usize),
    /// No order does.
    Inconsistent(Violation),
}

impl Plain for Verdict {
    ghost plain = { record { clones = λ x y same. same; never_fails = λ x. tt } };
}

impl Verdict {
    /// Whether some order satisfies the rule.
    pub fn is_consistent(&self) -> bool
        ensures { IsTrue result ↔ IsConsistent self.now }
    {
        matches!(self, Verdict::Consistent(_))
    }
}
