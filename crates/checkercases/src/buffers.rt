// The two buffers, each with a content of which no two places are alike.
use std::alloc::{AllocError, Global};
use verdicts::step::{Sort, Step};

fn store_at_first(i: u16) -> u16 {
    60000u16.wrapping_sub(i)
}

fn step_at_first(i: u16) -> Step {
    Step {
        from: 10000u16.wrapping_add(i),
        to: 50000u16.wrapping_sub(i),
        sort: Sort::Read(i),
    }
}

#[derive(Drop)]
pub(crate) struct Buffers {
    pub(crate) order: Vec<u16>,
    pub(crate) steps: Vec<Step>,
}

impl Buffers {
    // With so many places in each.
    pub(crate) fn of(heap: Global, stores: u16, steps: u16) -> Result<Buffers, AllocError> {
        Ok(Buffers {
            order: (0..stores).map(store_at_first).collect(heap)?,
            steps: (0..steps).map(step_at_first).collect(heap)?,
        })
    }

    // Whether all places hold the same.
    pub(crate) fn are_as(&self, other: &Buffers) -> bool {
        self.order.as_slice() == other.order.as_slice()
            && self.steps.as_slice() == other.steps.as_slice()
    }
}
