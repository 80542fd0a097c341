//! The rule of RC20: a release synchronises with an acquire that reads from it, if need be through updates and fences.
ghost use Rattle.std.specs.Prelude.{◌↔◌, IsTrue, IsFalse};
ghost use Rattle.models.specs.Models.{rc20_rule};
ghost use Rattle.models.specs.JoinedRules.{rc20_joined};
ghost use Rattle.models.specs.Walk.{Starts, Reaches, Arrives, Walked};

use crate::rule::Rule;
use events::limits::MAX_EVENTS;
use executions::execution::Execution;
use executions::kinds::is_fence;
use executions::relations::{po, writer};

/// From a release, which may be a fence before the store; along one or more steps of reads-from; to an acquire, which may be a fence
/// after the load.
pub struct Rc20Rule;

// A place for each event number, of which 0 is that of no event.
type Marks = [bool; MAX_EVENTS + 1];

// Whether what a releases begins at w.
fn starts<E: Execution>(run: &E, a: usize, w: usize) -> bool
    ensures { IsTrue result ↔ Starts (E.Execution.events run.now) a w }
{
    a == w || (is_fence(run, a) && po(run, a, w))
}

// Whether what a releases gets to r. The walk goes back from r, and stops at what was seen, by it or by
// another walk for a: updates may read from one another in a ring.
fn reaches<E: Execution>(run: &E, a: usize, r: usize, seen: &mut Marks) -> bool
    requires { Walked (E.Execution.events run.now) a seen.old }
    ensures decides { IsTrue result ↔ Reaches (E.Execution.events run.now) a r }
    ensures walked { IsFalse result → Walked (E.Execution.events run.now) a seen.new }
{
    let mut at = r;
    while let Some(w) = writer(run, at) {
        if seen[w] {
            return false;
        }
        if starts(run, a, w) {
            return true;
        }
        seen[w] = true;
        at = w;
    }
    false
}

// Whether what a releases gets to b, or to what b as a fence comes after.
fn arrives<E: Execution>(run: &E, a: usize, b: usize) -> bool
    ensures { IsTrue result ↔ Arrives (E.Execution.events run.now) a b }
{
    let mut seen = [false; MAX_EVENTS + 1];
    if reaches(run, a, b, &mut seen) {
        return true;
    }
    if is_fence(run, b) {
        for r in 1..run.count() + 1 {
            if po(run, r, b) && reaches(run, a, r, &mut seen) {
                return true;
            }
        }
    }
    false
}

impl Rule for Rc20Rule {
    ghost pairs = { λ _. rc20_rule };

    fn syncs<E: Execution>(&self, run: &E, a: usize, b: usize) -> bool {
        run.event(a).is_ok_and(|event| event.mode.releases())
            && run.event(b).is_ok_and(|event| event.mode.acquires())
            && arrives(run, a, b)
    }

    ghost joined = { λ _. rc20_joined };
}
