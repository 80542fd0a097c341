// The two buffers, with a content of which no two places are alike.
use std::alloc::{AllocError, Global};
use verdicts::step::{Sort, Step};

fn store_at_first(i: u16) -> u16 {
    20000u16.wrapping_add(i)
}

fn step_at_first(i: u16) -> Step {
    Step {
        from: 30000u16.wrapping_add(i),
        to: 40000u16.wrapping_add(i),
        sort: Sort::Read(50000u16.wrapping_add(i)),
    }
}

#[derive(Drop)]
pub(crate) struct Buffers {
    pub(crate) order: Vec<u16>,
    pub(crate) steps: Vec<Step>,
}

impl Buffers {
    // With so many places in the order buffer, and so many in the step buffer.
    pub(crate) fn of(heap: Global, lengths: (u16, u16)) -> Result<Buffers, AllocError> {
        let mut order = Vec::new(heap);
        for i in 0..lengths.0 {
            order.push(store_at_first(i))?;
        }
        let mut steps = Vec::new(heap);
        for i in 0..lengths.1 {
            steps.push(step_at_first(i))?;
        }
        Ok(Buffers { order, steps })
    }

    // Whether all places are as they were at first, but so many at the head of each buffer.
    pub(crate) fn keep_all_but(&self, stores: usize, steps: usize) -> bool {
        for (i, place) in (0..u16::MAX).zip(self.order.as_slice()) {
            if usize::from(i) >= stores && *place != store_at_first(i) {
                return false;
            }
        }
        for (i, place) in (0..u16::MAX).zip(self.steps.as_slice()) {
            if usize::from(i) >= steps && *place != step_at_first(i) {
                return false;
            }
        }
        true
    }

    pub(crate) fn first_stores(&self, count: usize) -> &[u16] {
        self.order.as_slice().get(..count).unwrap_or(&[])
    }

    pub(crate) fn first_steps(&self, count: usize) -> &[Step] {
        self.steps.as_slice().get(..count).unwrap_or(&[])
    }
}
