// A run as long as it may be.
use crate::words::BLANK;
use confirm::by_number::confirm;
use confirm::finding::Finding;
use events::raw::RawEvent;
use models::axiom::Axiom;
use recorder::opened::OpenRecord;
use recorder::sealed::SealedRecord;
use std::alloc::Global;
use std::test::Fail;

// By turns a write, and an update of the same location that reads from it, through eight threads and 64 locations.
fn planned(i: u16) -> RawEvent {
    let is_write = i % 2 == 0;
    RawEvent {
        thread: (i % 8) as u8 + 1,
        kind: if is_write { 2 } else { 3 },
        mode: if is_write { 2 } else { 1 },
        location: (i / 2 % 64) as u8 + 1,
        writer: if is_write { 0 } else { i },
    }
}

fn record(memory: &mut [RawEvent]) -> Result<OpenRecord, Fail> {
    let mut record = OpenRecord::open();
    for i in 0..512u16 {
        let event = planned(i);
        record.note(memory, event.thread, event.kind, event.mode, event.location)?;
    }
    for i in (1..512u16).step_by(2) {
        record.link(memory, usize::from(i) + 1, usize::from(planned(i).writer))?;
    }
    Ok(record)
}

// The stores of each location as they are numbered.
fn as_numbered(heap: Global) -> Result<Vec<u16>, Fail> {
    let mut order = Vec::new(heap);
    for location in 1..65 {
        for i in 0..512u16 {
            if planned(i).location == location {
                order.push(i + 1)?;
            }
        }
    }
    Ok(order)
}

// Of few models, since each takes ten seconds where a test is tried and not built.
#[test]
fn a_long_run(rt: HostRuntime) -> Result<(), Fail> {
    let mut memory = [BLANK; 512];
    let record = record(&mut memory)?;
    let mut sealed = SealedRecord::empty();
    assert!(rt; record.seal(&memory, &mut sealed).is_ok());
    let mut order = as_numbered(rt.alloc())?;
    assert!(rt; confirm(1, &sealed, order.as_slice()) == Ok(Finding::Passes));
    assert!(rt; confirm(3, &sealed, order.as_slice()) == Ok(Finding::Passes));
    // The last update now stands before the write that it reads from.
    if let [.., last_but_one, last] = order.as_mut_slice() {
        (*last_but_one, *last) = (512, 511);
    }
    let fails = Ok(Finding::Fails(Axiom::WriteCoherence));
    assert!(rt; confirm(5, &sealed, order.as_slice()) == fails);
    Ok(())
}
