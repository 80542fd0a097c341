// A record as long as it may be.
use crate::rows::record;
use crate::words::JUNK;
use events::event::Event;
use events::raw::RawEvent;
use executions::execution::Execution;
use executions::fault::CheckerFault;
use recorder::fault::RecordFault;
use recorder::opened::OpenRecord;
use recorder::sealed::SealedRecord;
use std::process::Abort;

// Event i + 1 of the session: by turns a write, and an update of the same location that reads from it.
fn planned(i: u16) -> RawEvent {
    let is_write = i % 2 == 0;
    RawEvent {
        thread: (i % 8) as u8 + 1,
        kind: if is_write { 2 } else { 3 },
        mode: if is_write { 2 } else { 1 },
        location: (i / 2 % 64) as u8 + 1,
        writer: if is_write { 0 } else { i },
    }
}

fn record_all(rt: &impl Abort, open: &mut OpenRecord, memory: &mut [RawEvent]) {
    for i in 0..512u16 {
        let place = planned(i);
        let noted = open.note(memory, place.thread, place.kind, place.mode, place.location);
        assert_eq!(rt; noted, Ok(usize::from(i) + 1));
    }
    for i in (1..512u16).step_by(2) {
        let linked = open.link(memory, usize::from(i) + 1, usize::from(i));
        assert_eq!(rt; linked, Ok(()));
    }
}

fn ask_all(rt: &impl Abort, sealed: &SealedRecord, count: u16) {
    assert_eq!(rt; sealed.count(), usize::from(count));
    for i in 0..count {
        let expected = Event::try_from(planned(i)).ok();
        assert!(rt; sealed.event(usize::from(i) + 1).ok() == expected);
    }
    for i in [0, usize::from(count) + 1] {
        assert!(rt; sealed.event(i) == Err(CheckerFault::NoEvent(i)));
    }
}

#[test]
fn a_long_session(rt: HostRuntime) {
    let mut memory = [JUNK; 512];
    let mut open = SealedRecord::empty().reopen();
    record_all(&rt, &mut open, &mut memory);
    assert_eq!(rt;
        open.note(&mut memory, 1, 2, 0, 1),
        Err(RecordFault::TooMany)
    );
    let damaged = [JUNK; 512];
    let mut sealed = SealedRecord::empty();
    assert!(rt; open.seal(&memory, &mut sealed).is_ok());
    // A refused seal leaves the run that the place holds.
    assert!(rt; record(1).seal(&damaged, &mut sealed).is_err());
    ask_all(&rt, &sealed, 512);
    // The last write may be taken back once the update that reads from it is.
    let mut open = sealed.reopen();
    assert_eq!(rt; open.retract(&memory), Ok(()));
    assert_eq!(rt; open.retract(&memory), Ok(()));
    let mut sealed = SealedRecord::empty();
    assert!(rt; open.seal(&memory, &mut sealed).is_ok());
    ask_all(&rt, &sealed, 510);
}
