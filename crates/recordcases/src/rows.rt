// Carrying out one call.
use crate::words::{call, memory, said};
use events::raw::RawEvent;
use executions::execution::Execution;
use recorder::opened::OpenRecord;
use recorder::sealed::SealedRecord;
use sessions::calls::{Answer, Call};
use sessions::handed::Handed;
use std::alloc::Global;
use std::test::Fail;

const FENCE: RawEvent = RawEvent {
    thread: 1,
    kind: 4,
    mode: 0,
    location: 0,
    writer: 0,
};

// A record of so many events. They are noted in other memory, since a record is no more than their number.
pub(crate) fn record(count: usize) -> OpenRecord {
    let mut elsewhere = [FENCE; 512];
    let mut open = OpenRecord::open();
    for _ in 0..count {
        let _ = open.note(&mut elsewhere, 1, 4, 0, 0);
    }
    open
}

// What the next note in other memory answers, which shows how many events the record has.
fn next(mut open: OpenRecord) -> Answer {
    Answer::from(open.note(&mut [FENCE; 512], 1, 4, 0, 0))
}

// The record after the call, open again if that sealed it, and the answer. A refused seal has to leave the place empty, or its
// answer is what the place counts.
fn carry_out(mut open: OpenRecord, memory: &mut [RawEvent], call: Call) -> (OpenRecord, Answer) {
    let answer = match call {
        Call::Note {
            thread,
            kind,
            mode,
            location,
            ..
        } => { Answer::from(open.note(memory, thread, kind, mode, location)) }
        Call::Link { event, writer, .. } => Answer::from(open.link(memory, event, writer)),
        Call::Retract { .. } => Answer::from(open.retract(memory)),
        Call::Seal { .. } => {
            let mut place = SealedRecord::empty();
            return match open.seal(memory, &mut place) {
                Ok(()) => (place.reopen(), Answer::Done),
                Err(refused) if place.count() == 0 => {
                    (refused.record, Answer::Refused(refused.fault))
                },
                Err(refused) => (refused.record, Answer::Counted(place.count())),
            };
        }
        Call::Reopen | Call::Count | Call::Event(_) => Answer::Barred,
    };
    (open, answer)
}

// The answer to a call on memory as before, and what is amiss if memory and record are then not as after.
pub(crate) fn outcome(
    heap: Global,
    before: &str,
    words: &str,
    after: &str,
) -> Result<String, Fail> {
    let call = call(words)?;
    let places = match call {
        Call::Note {
            handed: Handed::Own(places),
            ..
        }
        | Call::Link {
            handed: Handed::Own(places),
            ..
        }
        | Call::Retract {
            handed: Handed::Own(places),
        }
        | Call::Seal {
            handed: Handed::Own(places),
        } => places,
        Call::Note { .. } | Call::Link { .. } | Call::Retract { .. } | Call::Seal { .. } => 0,
        Call::Reopen | Call::Count | Call::Event(_) => 0,
    };
    let (mut changed, count) = memory(heap, places, before)?;
    let (open, answer) = carry_out(record(count), changed.as_mut_slice(), call);
    let (expected, count) = memory(heap, places, after)?;
    let mut text = said(heap, answer)?;
    if changed != expected {
        text.push_str(", other memory")?;
    }
    if next(open) != next(record(count)) {
        text.push_str(", another count")?;
    }
    Ok(text)
}
