// What an opened log answers, and what a refused one leaves.
use events::refusal::{Layer, Refusal};
use executions::execution::Execution;
use executions::relations::{po, rf};
use runlog::log::Log;
use runlog::opening::open_log;
use runlog::sample::two_plus_two_writes;
use std::alloc::Global;
use std::test::Fail;

// The sample, opened.
fn sample(bytes: &[u8]) -> Result<Log<'_>, Fail> {
    Log::try_from(bytes).map_err(|_| Fail::new("the sample does not open"))
}

// Event i as text.
fn shown(heap: Global, log: &Log, i: usize) -> Result<String, Fail> {
    let event = log.event(i).map_err(|_| Fail::new("no such event"))?;
    Ok(event.to_string(heap)?)
}

// The layer, the number and the place of a refusal.
fn parts<R: Refusal>(fault: &R) -> (Layer, u8, usize) {
    (fault.layer(), fault.number(), fault.place())
}

#[test]
fn no_events_at_first(rt: HostRuntime) {
    assert_eq!(rt; Log::empty().count(), 0);
}

#[test]
fn events_by_number(rt: HostRuntime) -> Result<(), Fail> {
    let bytes = two_plus_two_writes();
    let log = sample(&bytes)?;
    assert_eq!(rt; log.count(), 6);
    for (i, text) in [
        (1, "T1 W rel L1"),
        (3, "T1 R acq L2 from 4"),
        (6, "T2 R acq L1 from 1"),
    ] {
        assert_eq!(rt; shown(rt.alloc(), &log, i)?.as_str(), text);
    }
    for i in [0, 7] {
        let refused = log.event(i).map_err(|fault| parts(&fault));
        assert!(rt; refused.err() == Some((Layer::Checker, 5, i)));
    }
    Ok(())
}

#[test]
fn a_refused_log_leaves_the_place(rt: HostRuntime) {
    let bytes = two_plus_two_writes();
    let mut log = Log::empty();
    assert!(rt; open_log(&bytes, &mut log).is_ok());
    let refused = open_log(&bytes[..65], &mut log).map_err(|fault| fault.layer());
    assert!(rt; refused == Err(Layer::Log));
    assert_eq!(rt; log.count(), 6);
}

#[test]
fn program_order_and_reads_from(rt: HostRuntime) -> Result<(), Fail> {
    let bytes = two_plus_two_writes();
    let log = sample(&bytes)?;
    for a in 0..8usize {
        for b in 0..8usize {
            let one = 1 <= a && a < b && b <= 3;
            let two = 4 <= a && a < b && b <= 6;
            assert_eq!(rt; po(&log, a, b), one || two);
            assert_eq!(rt; rf(&log, a, b), (a == 4 && b == 3) || (a == 1 && b == 6));
        }
    }
    Ok(())
}

#[test]
fn one_event_after_another(rt: HostRuntime) -> Result<(), Fail> {
    assert_eq!(rt; Log::empty().iter().count(), 0);
    let bytes = two_plus_two_writes();
    let log = sample(&bytes)?;
    assert_eq!(rt; log.iter().count(), 6);
    assert!(rt; log.iter().next() == log.event(1).ok());
    assert!(rt; log.iter().last() == log.event(6).ok());
    Ok(())
}
