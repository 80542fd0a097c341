//! The graphs of whose edges steps are shown.
use crate::ring::Joins;
use chains::chains::Chains;
use chains::reads::Reads;
use executions::execution::Execution;
use executions::relations::po;
use relation::relation::Relation;
use verdicts::step::{Sort, Step};

// Program order and reads-from.
#[derive(Drop)]
pub(crate) struct CausalJoins<'a, E: Execution> {
    pub(crate) run: &'a E,
}

impl<'a, E: Execution> Joins for CausalJoins<'a, E> {
    ghost use Rattle.events.specs.Graph.{PoRf};
    ghost use Rattle.judge.specs.Ring.{CausalStep};

    ghost edge = { λ j. PoRf (E.Execution.events j.run.now) };

    ghost shows = { λ j. CausalStep (E.Execution.events j.run.now) };

    fn step(&self, a: usize, b: usize) -> Step {
        Step {
            from: a as u16,
            to: b as u16,
            sort: if po(self.run, a, b) {
                Sort::Po
            } else {
                Sort::Rf
            },
        }
    }
}

// The steps between chains, from head to head.
#[derive(Drop)]
pub(crate) struct ChainJoins<'a, E: Execution> {
    pub(crate) chains: &'a Chains<'a, E>,
    pub(crate) hb: &'a Relation,
}

impl<'a, E: Execution> Joins for ChainJoins<'a, E> {
    ghost use Rattle.relation.specs.Pairs.{Pairs};
    ghost use Rattle.verdicts.specs.Steps.{ChainStep};
    ghost use Rattle.judge.specs.Ring.{ChainToChain};

    ghost edge = { λ j. ChainStep (E.Execution.events j.chains.now.run.now) (Pairs j.hb.now) };

    ghost shows = { λ j. ChainToChain (E.Execution.events j.chains.now.run.now) (Pairs j.hb.now) };

    fn step(&self, g: usize, h: usize) -> Step {
        match self.chains.chain_step(self.hb, g, h) {
            Some(step) => step,
            None => unreachable!(),
        }
    }
}

// Happens-before and read steps.
#[derive(Drop)]
pub(crate) struct EventJoins<'a, E: Execution> {
    pub(crate) reads: &'a Reads<'a, E>,
    pub(crate) hb: &'a Relation,
}

impl<'a, E: Execution> Joins for EventJoins<'a, E> {
    ghost use Rattle.relation.specs.Pairs.{Pairs};
    ghost use Rattle.events.specs.Relations.{◌∪◌};
    ghost use Rattle.verdicts.specs.Steps.{ReadSteps};
    ghost use Rattle.judge.specs.Ring.{EventStep};

    ghost edge = { λ j. Pairs j.hb.now ∪ ReadSteps (E.Execution.events j.reads.now.run.now) (Pairs j.hb.now) };

    ghost shows = { λ j. EventStep (E.Execution.events j.reads.now.run.now) (Pairs j.hb.now) };

    fn step(&self, a: usize, b: usize) -> Step {
        let sort = if self.hb.contains(a, b) {
            Sort::Hb
        } else {
            match self.reads.load(self.hb, a, b) {
                Some(load) => Sort::Read(load as u16),
                None => unreachable!(),
            }
        };
        Step {
            from: a as u16,
            to: b as u16,
            sort,
        }
    }
}
