// The session that docs/RECORD.md works through.
use crate::words::JUNK;
use events::raw::RawEvent;
use executions::execution::Execution;
use recorder::fault::RecordFault;
use recorder::opened::OpenRecord;
use recorder::sealed::SealedRecord;
use std::process::Abort;
use std::test::Fail;

const fn place(thread: u8, kind: u8, mode: u8, location: u8, writer: u16) -> RawEvent {
    RawEvent {
        thread,
        kind,
        mode,
        location,
        writer,
    }
}

fn record_four(rt: &impl Abort, memory: &mut [RawEvent]) -> Result<OpenRecord, Fail> {
    let mut record = OpenRecord::open();
    record.note(memory, 1, 2, 0, 1)?;
    let flag = record.note(memory, 1, 2, 2, 2)?;
    let seen = record.note(memory, 2, 1, 1, 2)?;
    let read = record.note(memory, 2, 1, 0, 1)?;
    record.link(memory, seen, flag)?;
    assert_eq!(rt; record.link(memory, read, flag), Err(RecordFault::Unfit(4)));
    record.retract(memory)?;
    Ok(record)
}

#[test]
fn the_worked_session(rt: HostRuntime) -> Result<(), Fail> {
    let mut memory = [JUNK; 512];
    let record = record_four(&rt, &mut memory)?;
    let mut sealed = SealedRecord::empty();
    assert!(rt; record.seal(&memory, &mut sealed).is_ok());
    assert_eq!(rt; sealed.count(), 3);
    let mut record = sealed.reopen();
    let places = [
        place(1, 2, 0, 1, 0),
        place(1, 2, 2, 2, 0),
        place(2, 1, 1, 2, 2),
        place(2, 1, 0, 1, 0),
    ];
    for (i, expected) in places.iter().enumerate() {
        assert!(rt; memory.get(i) == Some(expected));
    }
    assert_eq!(rt; record.note(&mut memory, 1, 4, 0, 0), Ok(4));
    Ok(())
}
