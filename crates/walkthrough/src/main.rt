//! Uses the library as a rig would, and prints each call with its answer: records a run, seals it and judges it under every model;
//! then reopens it, makes its acquiring read relaxed, and judges it again.
#![tactic(auto)]

use confirm::by_number::confirm;
use confirm::finding::Finding;
use events::limits::MAX_EVENTS;
use events::raw::RawEvent;
use events::refusal::Refusal;
use events::text::write_refused;
use executions::execution::Execution;
use judge::by_number::judge;
use models::name::ModelName;
use recorder::opened::OpenRecord;
use recorder::sealed::SealedRecord;
use runtext::run::{LONGEST_RUN, write_run};
use std::io::{ErrorKind, Print};
use std::{io, str};
use verdicts::step::{Sort, Step};
use verdicts::verdict::Verdict;
use verdicttext::line::{LONGEST_LINE, write_line};
use writing::put::Full;

// Kinds and modes by their numbers.
const READ: u8 = 1;

const WRITE: u8 = 2;

const RELAXED: u8 = 0;

const ACQUIRE: u8 = 1;

const RELEASE: u8 = 2;

// What stands in the memory of a record, and in a step buffer, before anything is written there.
const NO_EVENT: RawEvent = RawEvent {
    thread: 0,
    kind: 0,
    mode: 0,
    location: 0,
    writer: 0,
};

const NO_STEP: Step = Step {
    from: 0,
    to: 0,
    sort: Sort::Po,
};

// Prints what a call wrote at the front of this text.
fn print_written(rt: &impl Print, text: &[u8], written: Result<usize, Full>) -> io::Result<()> {
    let count = written.map_err(|_| ErrorKind::InvalidData)?;
    let front = text.get(..count).unwrap_or(text);
    let characters = str::from_utf8(front).map_err(|_| ErrorKind::InvalidData)?;
    print!(rt; "{characters}")
}

// A line, that says why a call was refused.
fn print_refusal<R: Refusal>(rt: &impl Print, refusal: &R) -> io::Result<()> {
    let mut text = [0; 64];
    let written = write_refused(refusal, &mut text);
    print_written(rt, &text, written)?;
    println!(rt; "")
}

fn note(
    rt: &impl Print,
    open_record: &mut OpenRecord,
    memory: &mut [RawEvent],
    (thread, kind, mode, location): (u8, u8, u8, u8),
) -> io::Result<()> {
    print!(rt; "note thread {thread}, kind {kind}, mode {mode}, location {location}: ")?;
    match open_record.note(memory, thread, kind, mode, location) {
        Ok(number) => println!(rt; "event {number}"),
        Err(fault) => print_refusal(rt, &fault),
    }
}

fn link(
    rt: &impl Print,
    open_record: &OpenRecord,
    memory: &mut [RawEvent],
    event: usize,
    writer: usize,
) -> io::Result<()> {
    print!(rt; "link event {event} from {writer}: ")?;
    match open_record.link(memory, event, writer) {
        Ok(()) => println!(rt; "done"),
        Err(fault) => print_refusal(rt, &fault),
    }
}

fn retract(rt: &impl Print, open_record: &mut OpenRecord, memory: &[RawEvent]) -> io::Result<()> {
    print!(rt; "take the last event back: ")?;
    match open_record.retract(memory) {
        Ok(()) => println!(rt; "done"),
        Err(fault) => print_refusal(rt, &fault),
    }
}

// Judges the run under the model with this number, and lets the order be confirmed if there is one.
fn judge_under_number<E: Execution>(rt: &impl Print, number: u8, run: &E) -> io::Result<()> {
    let Some(model) = ModelName::numbered(number) else {
        return Ok(());
    };
    let mut order = [0; MAX_EVENTS];
    let mut steps = [NO_STEP; MAX_EVENTS];
    let answer = judge(number, run, &mut order, &mut steps);
    let mut text = [0; LONGEST_LINE];
    let written = write_line(model, run, answer, &order, &steps, &mut text);
    print_written(rt, &text, written)?;
    println!(rt; "")?;
    if let Ok(Verdict::Consistent(stores)) = answer {
        if confirm(number, run, &order[..stores]) == Ok(Finding::Passes) {
            return println!(rt; "confirmed");
        }
    }
    Ok(())
}

// Seals the record, judges it under every model and reopens it; or says why it cannot be sealed.
fn seal_and_judge(
    rt: &impl Print,
    open_record: OpenRecord,
    memory: &[RawEvent],
) -> io::Result<OpenRecord> {
    let mut sealed = SealedRecord::empty();
    if let Err(refused) = open_record.seal(memory, &mut sealed) {
        print!(rt; "seal: ")?;
        print_refusal(rt, &refused.fault)?;
        return Ok(refused.record);
    }
    println!(rt; "seal: done")?;
    let mut text = [0; LONGEST_RUN];
    let written = write_run(&sealed, &mut text);
    print_written(rt, &text, written)?;
    for number in 1..=5 {
        judge_under_number(rt, number, &sealed)?;
    }
    println!(rt; "reopen")?;
    Ok(sealed.reopen())
}

fn main(rt: HostRuntime) -> io::Result<()> {
    let mut memory = [NO_EVENT; MAX_EVENTS];
    let mut open_record = OpenRecord::open();
    println!(rt; "open")?;
    note(&rt, &mut open_record, &mut memory, (1, WRITE, RELAXED, 1))?;
    note(&rt, &mut open_record, &mut memory, (1, WRITE, RELAXED, 1))?;
    note(&rt, &mut open_record, &mut memory, (1, WRITE, RELEASE, 2))?;
    note(&rt, &mut open_record, &mut memory, (2, READ, ACQUIRE, 2))?;
    note(&rt, &mut open_record, &mut memory, (2, READ, RELAXED, 1))?;
    link(&rt, &open_record, &mut memory, 4, 3)?;
    link(&rt, &open_record, &mut memory, 5, 1)?;
    open_record = seal_and_judge(&rt, open_record, &memory)?;

    // The acquiring read, and what was noted after it, is noted anew.
    retract(&rt, &mut open_record, &memory)?;
    retract(&rt, &mut open_record, &memory)?;
    note(&rt, &mut open_record, &mut memory, (2, READ, RELAXED, 2))?;
    note(&rt, &mut open_record, &mut memory, (2, READ, RELAXED, 1))?;
    link(&rt, &open_record, &mut memory, 5, 1)?;
    // It has no writer yet, so this is refused, and the record is handed back.
    open_record = seal_and_judge(&rt, open_record, &memory)?;
    link(&rt, &open_record, &mut memory, 4, 3)?;
    let _ = seal_and_judge(&rt, open_record, &memory)?;
    Ok(())
}
