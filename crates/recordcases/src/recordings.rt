// Runs as the calls that record them, and these carried out.
use crate::rows::record;
use crate::words::{call, memory, said};
use recorder::sealed::SealedRecord;
use sessions::calls::{Answer, Call};
use sessions::recording::{MOST_CALLS, recording};
use sessions::replay::replay;
use std::alloc::Global;
use std::process::Abort;
use std::test::Fail;

// Two threads, of which the second reads, and updates what it has read.
const PLACES: &str = "1.2.2.1 2.1.1.1.1 2.3.3.1.1 1.4.3.0";

const CALLS: [(&str, &str); 13] = [
    ("note 512 1 2 2 1", "noted 1"),
    ("note 512 2 1 1 1", "noted 2"),
    ("note 512 2 3 3 1", "noted 3"),
    ("note 512 1 4 3 0", "noted 4"),
    ("link 512 2 1", "done"),
    ("link 512 3 1", "done"),
    ("seal 512", "done"),
    ("count", "count 4"),
    ("event 1", "T1 W rel L1"),
    ("event 2", "T2 R acq L1 from 1"),
    ("event 3", "T2 U acqrel L1 from 1"),
    ("event 4", "T1 F acqrel"),
    ("event 999", "count 999"),
];

fn written(rt: &impl Abort, calls: &[Call]) -> Result<(), Fail> {
    for (asked, (expected, _)) in calls.iter().zip(CALLS) {
        assert!(rt; *asked == call(expected)?);
    }
    Ok(())
}

fn answered(rt: &impl Abort, heap: Global, answers: &[Answer]) -> Result<(), Fail> {
    for (answer, (_, expected)) in answers.iter().zip(CALLS) {
        assert_eq!(rt; said(heap, *answer)?.as_str(), expected);
    }
    Ok(())
}

#[test]
fn a_recorded_run(rt: HostRuntime) -> Result<(), Fail> {
    let (places, count) = memory(rt.alloc(), 512, PLACES)?;
    let mut run = SealedRecord::empty();
    assert!(rt; record(count).seal(places.as_slice(), &mut run).is_ok());
    // One place too few, and then one too many.
    let mut calls = [Call::Event(999); 13];
    assert_eq!(rt; recording(&run, &mut calls[..11]), None);
    assert!(rt; calls == [Call::Event(999); 13]);
    assert_eq!(rt; recording(&run, &mut calls), Some(12));
    written(&rt, &calls)?;
    // Carried out, they record the same run.
    let (mut again, _) = memory(rt.alloc(), 512, "")?;
    let mut answers = [Answer::Counted(999); 13];
    replay(&calls[..12], again.as_mut_slice(), &mut [], &mut answers);
    answered(&rt, rt.alloc(), &answers)?;
    assert!(rt; again == places);
    Ok(())
}

#[test]
fn the_run_without_events(rt: HostRuntime) {
    let run = SealedRecord::empty();
    let mut calls = [Call::Reopen; 3];
    assert_eq!(rt; recording(&run, &mut calls[..1]), None);
    assert_eq!(rt; recording(&run, &mut calls), Some(2));
    assert!(rt; calls[1] == Call::Count);
    assert!(rt; calls[2] == Call::Reopen);
    assert_eq!(rt; MOST_CALLS, 1538);
}
