//! A rule says which events synchronise.
ghost use Rattle.std.specs.Prelude.{◌↔◌, IsTrue, ℕ, List};
ghost use Rattle.events.specs.Run.{FullRun};
ghost use Rattle.events.specs.declared.event.Event.{Event};
ghost use Rattle.models.specs.Joined.{Joined, SwJoins};

use executions::execution::Execution;

/// The meaning is a set of pairs of event numbers, for each list of events.
pub trait Rule {
    ghost pairs: { Self → List Event → ℕ → ℕ → Type 0 };

    /// Whether a synchronises with b. No pair with a number outside the run does.
    fn syncs<E: Execution>(&self, run: &E, a: usize, b: usize) -> bool
        ensures { IsTrue result ↔ pairs self.now (E.Execution.events run.now) a b };

    // An implementation shows that every pair is joined by one or more steps of program order and reads-from.
    ghost joined: { (x : Self) (es : List Event) → FullRun es → Joined es (pairs x es) };
}

/// Whether a synchronises with b by the rule. Besides the answer, the contract has the law that an implementation shows, in a
/// clause that does not look at the answer.
pub fn sw<R: Rule, E: Execution>(rule: &R, x: &E, a: usize, b: usize) -> bool
    ensures decides { IsTrue result ↔ R.Rule.pairs rule.now (E.Execution.events x.now) a b }
    ensures joins { SwJoins (E.Execution.events x.now) (R.Rule.pairs rule.now (E.Execution.events x.now)) }
{
    rule.syncs(x, a, b)
}
