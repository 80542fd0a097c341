//! The steps between chains, and those back in a chain.
ghost use Rattle.std.specs.Prelude.{◌≡◌, ◌≢◌, ◌↔◌, ◌<◌, ℕ, IsTrue, slice_index, MatchOption};
ghost use Rattle.relation.specs.Pairs.{has, Pairs};
ghost use Rattle.verdicts.specs.Absent.{NoBack};
ghost use Rattle.verdicts.specs.Chains.{InChain};
ghost use Rattle.verdicts.specs.Steps.{ChainStep};
ghost use Rattle.verdicts.specs.Violations.{StepHolds, IsBeforeOrRead, StepsBack};
ghost use Rattle.events.specs.Lowest.{IsLowest};
ghost use Rattle.chains.specs.Ends.{StepFor, LowestStep, Crosses, BackBy, LeadsBack, LeadsBackFrom};

use crate::chains::Chains;
use crate::ends::step_between;
use crate::lift::{Lift, kept};
use executions::execution::Execution;
use executions::kinds::location;
use relation::relation::Relation;
use verdicts::step::Step;

impl<'a, E: Execution> Chains<'a, E> {
    /// Which chains a step leads between, by their heads.
    pub fn chain_steps(&self, hb: &Relation) -> Relation
        ensures { (g h : ℕ) → IsTrue (has result g h) ↔ ChainStep (E.Execution.events self.now.run.now) (Pairs hb.now) g h }
    {
        let mut steps = Relation::empty();
        let lift = Lift {
            run: self.run,
            hb,
            from: &self.heads,
            to: &self.heads,
        };
        lift.add(&mut steps);
        steps
    }

    /// A step from the chain that g heads to another, that h heads: that of the lowest two events that lead there, by the first of
    /// them, then by the second.
    pub fn chain_step(&self, hb: &Relation, g: usize, h: usize) -> Option<Step>
        ensures { MatchOption result
            (¬ ChainStep (E.Execution.events self.now.run.now) (Pairs hb.now) g h)
            (λ s. (g ≢ h) × LowestStep (E.Execution.events self.now.run.now) (Crosses (E.Execution.events self.now.run.now) (Pairs hb.now) g h) s × StepHolds IsBeforeOrRead (E.Execution.events self.now.run.now) (Pairs hb.now) s × InChain (E.Execution.events self.now.run.now) g s.from × InChain (E.Execution.events self.now.run.now) h s.to) }
    {
        let lift = Lift {
            run: self.run,
            hb,
            from: &self.heads,
            to: &self.heads,
        };
        let Some((x, y)) = lift.find(g, h) else {
            return None;
        };
        step_between(self.run, x, y)
    }

    // Whether the second store stands before the first in one chain.
    fn leads_back(&self, step: &Step) -> bool
        ensures { IsTrue result ↔ (
            (slice_index self.now.heads step.now.from ≡ slice_index self.now.heads step.now.to)
            × (slice_index self.now.places step.now.to < slice_index self.now.places step.now.from)) }
    {
        let (from, to) = (usize::from(step.from), usize::from(step.to));
        kept(&self.heads, from) == kept(&self.heads, to)
            && kept(&self.places, to) < kept(&self.places, from)
    }

    // The step that x before y amounts to, if it leads back in a chain.
    fn back_between(&self, hb: &Relation, x: usize, y: usize) -> Option<Step>
        ensures { MatchOption result
            (¬ LeadsBack (E.Execution.events self.now.run.now) (Pairs hb.now) x y)
            (λ s. BackBy (E.Execution.events self.now.run.now) (Pairs hb.now) x y s × StepsBack (E.Execution.events self.now.run.now) (Pairs hb.now) s) }
    {
        if !hb.contains(x, y) || location(self.run, x) != location(self.run, y) {
            return None;
        }
        let Some(step) = step_between(self.run, x, y) else {
            return None;
        };
        if self.leads_back(&step) {
            Some(step)
        } else {
            None
        }
    }

    // The step back in a chain that x before the lowest such event amounts to.
    fn back_from(&self, hb: &Relation, x: usize) -> Option<Step>
        ensures { MatchOption result
            (¬ LeadsBackFrom (E.Execution.events self.now.run.now) (Pairs hb.now) x)
            (λ s. ((y : ℕ) × IsLowest (LeadsBack (E.Execution.events self.now.run.now) (Pairs hb.now) x) y × StepFor (E.Execution.events self.now.run.now) x y s) × StepsBack (E.Execution.events self.now.run.now) (Pairs hb.now) s) }
    {
        for y in 1..self.run.count() + 1 {
            if let Some(step) = self.back_between(hb, x, y) {
                return Some(step);
            }
        }
        None
    }

    /// A step from a store to one before it in its chain: that of the lowest two events that lead back, by the first of them, then
    /// by the second.
    pub fn step_back(&self, hb: &Relation) -> Option<Step>
        ensures { MatchOption result
            (NoBack (E.Execution.events self.now.run.now) (Pairs hb.now))
            (λ s. LowestStep (E.Execution.events self.now.run.now) (LeadsBack (E.Execution.events self.now.run.now) (Pairs hb.now)) s × StepsBack (E.Execution.events self.now.run.now) (Pairs hb.now) s) }
    {
        for x in 1..self.run.count() + 1 {
            if let Some(step) = self.back_from(hb, x) {
                return Some(step);
            }
        }
        None
    }
}
