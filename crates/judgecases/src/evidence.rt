// Whether what a verdict says holds, and whether its steps show it.
use crate::facts::Facts;
use executions::execution::Execution;
use models::rule::Rule;
use verdicts::step::{Sort, Step};
use verdicts::violation::Violation;

// Whether steps of this sort show the violation.
fn may_show(violation: Violation, sort: Sort) -> bool {
    match violation {
        Violation::Causal(_) => matches!(sort, Sort::Po | Sort::Rf),
        Violation::Back | Violation::Round(_, _) => matches!(sort, Sort::Before | Sort::Read(_)),
        Violation::Whole(_) => matches!(sort, Sort::Hb | Sort::Read(_)),
        Violation::Twin(_, _) | Violation::Weak(_, _, _) => false,
    }
}

// Steps that are to show a violation.
#[derive(Drop)]
pub(crate) struct Evidence<'a, R: Rule, E: Execution> {
    pub(crate) facts: Facts<'a, R, E>,
    pub(crate) violation: Violation,
    pub(crate) steps: &'a [Step],
}

impl<'a, R: Rule, E: Execution> Evidence<'a, R, E> {
    // Whether the steps are true, and of the right sorts.
    fn is_true(&self) -> bool {
        for step in self.steps {
            if !may_show(self.violation, step.sort) || !self.facts.has(*step) {
                return false;
            }
        }
        true
    }

    // Where an event is in the cycle: in its chain, or at itself.
    fn spot(&self, event: u16) -> usize {
        match self.violation {
            Violation::Round(_, _) => self.facts.head(usize::from(event)),
            _ => usize::from(event),
        }
    }

    // Whether each step starts where the one before it ended, and the first where the last did.
    fn is_joined(&self) -> bool {
        let Some(last) = self.steps.last() else {
            return false;
        };
        let mut at = self.spot(last.to);
        for step in self.steps {
            if self.spot(step.from) != at {
                return false;
            }
            at = self.spot(step.to);
        }
        true
    }

    // Whether no two steps start at one place.
    fn is_apart(&self) -> bool {
        for (i, step) in self.steps.iter().enumerate() {
            for other in self.steps.iter().skip(i + 1) {
                if self.spot(step.from) == self.spot(other.from) {
                    return false;
                }
            }
        }
        true
    }

    fn is_cycle(&self) -> bool {
        self.steps.len() >= 2 && self.is_true() && self.is_joined() && self.is_apart()
    }

    // Whether all steps start at stores of this location.
    fn is_at(&self, location: u8) -> bool {
        for step in self.steps {
            if self.facts.location(usize::from(step.from)) != location {
                return false;
            }
        }
        true
    }

    // Whether it is one step, which leads back in its chain.
    fn leads_back(&self) -> bool {
        let [step] = self.steps else {
            return false;
        };
        let (a, b) = (usize::from(step.from), usize::from(step.to));
        self.is_true() && self.facts.is_before_in_chain(b, a)
    }

    // Whether the violation holds, and the steps show it.
    pub(crate) fn shows(&self) -> bool {
        match self.violation {
            Violation::Causal(_) | Violation::Whole(_) => self.is_cycle(),
            Violation::Twin(u, v) => self.facts.has_twins(usize::from(u), usize::from(v)),
            Violation::Weak(w, v, r) => {
                self.facts
                    .has_between(usize::from(w), usize::from(v), usize::from(r))
            }
            Violation::Back => self.leads_back(),
            Violation::Round(location, _) => self.is_cycle() && self.is_at(location),
        }
    }
}
