// The relations of a run, in plain code.
use executions::execution::Execution;
use executions::kinds::{is_store, is_update, location};
use executions::relations::{po, rf, writer};
use models::rule::Rule;
use verdicts::step::{Sort, Step};

// A run, and the rule by which its events synchronise.
#[derive(Drop)]
pub(crate) struct Facts<'a, R: Rule, E: Execution> {
    pub(crate) rule: &'a R,
    pub(crate) run: &'a E,
}

impl<'a, R: Rule, E: Execution> Facts<'a, R, E> {
    // Whether steps of program order and of the rule lead from a to e: all events that they lead to are found, one after
    // another.
    fn happens_before(&self, a: usize, e: usize) -> bool {
        let mut marks = [false; 513];
        let mut found = [a; 513];
        let mut count = 1usize;
        for k in 0..513 {
            if k >= count {
                return false;
            }
            let at = found[k];
            for b in 1..513 {
                if b > self.run.count() {
                    break;
                }
                let is_step = po(self.run, at, b) || self.rule.syncs(self.run, at, b);
                if is_step && b == e {
                    return true;
                }
                if is_step && !marks[b] && count < 513 {
                    marks[b] = true;
                    found[count] = b;
                    count += 1;
                }
            }
        }
        false
    }

    // Whether both are stores, of one location.
    fn are_stores(&self, a: usize, b: usize) -> bool {
        let run = self.run;
        is_store(run, a) && is_store(run, b) && location(run, a) == location(run, b)
    }

    // Whether a reaches the load r by an optional reads-from and then happens-before.
    fn reaches_load(&self, a: usize, r: usize) -> bool {
        for m in 1..self.run.count() + 1 {
            if (m == a || rf(self.run, a, m)) && self.happens_before(m, r) {
                return true;
            }
        }
        false
    }

    // Whether a reaches the store b by an optional reads-from and then an optional happens-before.
    fn reaches_store(&self, a: usize, b: usize) -> bool {
        a == b || rf(self.run, a, b) || self.reaches_load(a, b)
    }

    // Whether the step is what it says.
    pub(crate) fn has(&self, step: Step) -> bool {
        let (a, b) = (usize::from(step.from), usize::from(step.to));
        match step.sort {
            Sort::Po => po(self.run, a, b),
            Sort::Rf => rf(self.run, a, b),
            Sort::Hb => self.happens_before(a, b),
            Sort::Before => a != b && self.are_stores(a, b) && self.reaches_store(a, b),
            Sort::Read(load) => {
                let r = usize::from(load);
                a != b && self.are_stores(a, b) && rf(self.run, b, r) && self.reaches_load(a, r)
            }
        }
    }

    // Whether u and v are updates of one writer, the lower number first.
    pub(crate) fn has_twins(&self, u: usize, v: usize) -> bool {
        let run = self.run;
        u < v && is_update(run, u) && is_update(run, v) && writer(run, u) == writer(run, v)
    }

    // Whether v, a store at the location of w, comes between w and r, which reads from w.
    pub(crate) fn has_between(&self, w: usize, v: usize, r: usize) -> bool {
        rf(self.run, w, r)
            && self.are_stores(w, v)
            && self.happens_before(w, v)
            && self.happens_before(v, r)
    }

    // Whether the store b stands before a in its chain.
    pub(crate) fn is_before_in_chain(&self, b: usize, a: usize) -> bool {
        let mut at = a;
        for _ in 0..self.run.count() {
            match writer(self.run, at) {
                Some(w) => at = w,
                None => return false,
            }
            if at == b {
                return true;
            }
        }
        false
    }

    // The head of the chain in which the store a stands.
    pub(crate) fn head(&self, a: usize) -> usize {
        let mut at = a;
        for _ in 0..self.run.count() {
            at = writer(self.run, at).unwrap_or(at);
        }
        at
    }

    // The location that the event accesses.
    pub(crate) fn location(&self, a: usize) -> u8 {
        location(self.run, a)
    }
}
