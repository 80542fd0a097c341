// A run as long as it may be: each thread writes at each of 32 locations, and then reads what the thread before it wrote there.
use crate::answers::{MODELS, line};
use crate::buffers::Buffers;
use crate::words::{bytes, opened};
use judge::by_number::judge;
use models::name::ModelName;
use std::alloc::{AllocError, Global};
use std::test::Fail;

const THREADS: u16 = 8;

const LOCATIONS: u16 = 32;

// The write of the thread at its kth location. Threads are counted from 0 here.
fn write(thread: u16, k: u16) -> u16 {
    thread % THREADS * (2 * LOCATIONS) + k % LOCATIONS * 2 + 1
}

// The first thread has a fence after each write, since there is no thread before it. Few of the events synchronise, since a
// question to RC20's rule that is no quick one takes its time where a test is tried and not built.
fn words(heap: Global) -> Result<String, AllocError> {
    let mut words = String::new(heap);
    for thread in 0..THREADS {
        for k in 0..LOCATIONS {
            let (name, location) = (thread + 1, 2 * k + 2);
            let (writes, reads, fence) = if k % 8 == 7 {
                ("rel", "acq", "acqrel")
            } else {
                ("rlx", "rlx", "rlx")
            };
            let pair = if thread == 0 {
                format!(in heap; "{name}.W.{writes}.{location} {name}.F.{fence} ")?
            } else {
                let writer = write(thread - 1, k);
                format!(in heap;
                    "{name}.W.{writes}.{location} {name}.R.{reads}.{location}.{writer} "
                )?
            };
            words.push_str(pair.as_str())?;
        }
    }
    Ok(words)
}

// At each location the write of a thread comes after that of the next thread.
fn order(heap: Global) -> Result<String, AllocError> {
    let mut words = String::new(heap);
    for k in 0..LOCATIONS {
        let location = 2 * k + 2;
        words.push_str(format!(in heap; " {location}:{}", write(7, k))?.as_str())?;
        for thread in 1..THREADS {
            words.push_str(format!(in heap; "<{}", write(7 - thread, k))?.as_str())?;
        }
    }
    Ok(words)
}

// By the judge alone: a check judges such a run five times, which takes its time where a test is tried and not built.
#[test]
fn each_model(rt: HostRuntime) -> Result<(), Fail> {
    let words = words(rt.alloc())?;
    let bytes = bytes(rt.alloc(), words.as_str())?;
    let run = opened(bytes.as_slice())?;
    let laid = order(rt.alloc())?;
    for model in MODELS {
        let mut buffers = Buffers::of(rt.alloc(), 512, 512)?;
        let order = buffers.order.as_mut_slice();
        let answer = judge(model.number(), &run, order, buffers.steps.as_mut_slice());
        let (order, steps) = (buffers.order.as_slice(), buffers.steps.as_slice());
        let line = line(rt.alloc(), model, &run, answer, order, steps)?;
        let is_weak = model == ModelName::Wra;
        let expected = if is_weak { "" } else { laid.as_str() };
        let (_, words) = line.as_str().split_once(' ').unwrap_or(("", ""));
        assert!(rt;
            words.strip_prefix("consistent") == Some(expected),
            "{line}"
        );
    }
    Ok(())
}
