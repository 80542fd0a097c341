//! Carries out lists of a record's calls, each call a line on standard input, and prints each answer, and at the end of a list
//! each place of memory that is not all 0.
#![tactic(auto)]

mod answer;
mod line;
mod memories;

use crate::answer::Answer;
use crate::line::Line;
use crate::memories::Memories;
use events::raw::RawEvent;
use executions::execution::Execution;
use recorder::opened::OpenRecord;
use recorder::sealed::SealedRecord;
use std::io;
use std::io::{BufRead, BufReader, Print, Split, Stdin};

type Lines = Split<BufReader<Stdin>>;

// What ends a list of calls.
#[derive(Clone, Copy)]
enum End {
    // The line `open`, which begins another.
    Open,
    // There are no more lines.
    Input,
}

// What comes of sealing a record.
#[derive(Drop)]
enum Sealed {
    // It is open again, or still.
    Reopened(OpenRecord),
    // The list ended while it was sealed.
    Over(End),
}

// The next line, if there is one.
fn next_line(lines: &mut Lines) -> io::Result<Option<Line>> {
    match lines.next() {
        None => Ok(None),
        Some(bytes) => Ok(Some(Line::from(bytes?.as_slice()))),
    }
}

// The answer to a line while the record is sealed, but to one that ends this.
fn sealed_answer(sealed: &SealedRecord<'_>, line: Line) -> Answer {
    match line {
        Line::Count => Answer::Counted(sealed.count()),
        Line::Event(i) => Answer::from(sealed.event(i)),
        Line::NotACall => Answer::NotACall,
        Line::Open
        | Line::Note { .. }
        | Line::Link { .. }
        | Line::Retract(_)
        | Line::Seal(_)
        | Line::Reopen
        | Line::Damage { .. } => Answer::Barred,
    }
}

// Answers lines while the record is sealed: up to the one that reopens it, or to the end of the list.
fn until_reopened(
    rt: &impl Print,
    lines: &mut Lines,
    sealed: SealedRecord<'_>,
) -> io::Result<Sealed> {
    for _ in 0..u64::MAX {
        match next_line(lines)? {
            None => break,
            Some(Line::Open) => return Ok(Sealed::Over(End::Open)),
            Some(Line::Reopen) => {
                Answer::Done.print(rt)?;
                return Ok(Sealed::Reopened(sealed.reopen()));
            }
            Some(line) => sealed_answer(&sealed, line).print(rt)?,
        }
    }
    Ok(Sealed::Over(End::Input))
}

// Seals the record, if it may be, and goes on until it is open again.
fn seal(
    rt: &impl Print,
    lines: &mut Lines,
    open_record: OpenRecord,
    memory: &[RawEvent],
) -> io::Result<Sealed> {
    let mut sealed = SealedRecord::empty();
    match open_record.seal(memory, &mut sealed) {
        Ok(()) => {
            Answer::Done.print(rt)?;
            until_reopened(rt, lines, sealed)
        }
        Err(refused) => {
            Answer::RecordRefused(refused.fault).print(rt)?;
            Ok(Sealed::Reopened(refused.record))
        }
    }
}

// The answer to a line while the record is open, but to one that ends this.
fn open_answer(open_record: &mut OpenRecord, memories: &mut Memories, line: Line) -> Answer {
    match line {
        Line::Note {
            handed,
            thread,
            kind,
            mode,
            location,
        } => {
            let memory = memories.handed_mut(handed);
            Answer::from(open_record.note(memory, thread, kind, mode, location))
        }
        Line::Link {
            handed,
            event,
            writer,
        } => Answer::from(open_record.link(memories.handed_mut(handed), event, writer)),
        Line::Retract(handed) => Answer::from(open_record.retract(memories.handed(handed))),
        Line::Damage {
            memory,
            place,
            damage,
        } => {
            memories.damage(memory, place, damage);
            Answer::Damaged
        }
        Line::NotACall => Answer::NotACall,
        Line::Open | Line::Seal(_) | Line::Reopen | Line::Count | Line::Event(_) => Answer::Barred,
    }
}

// Carries out a list of calls on a new record, up to its end.
fn carry_out(rt: &impl Print, lines: &mut Lines, memories: &mut Memories) -> io::Result<End> {
    let mut open_record = OpenRecord::open();
    for _ in 0..u64::MAX {
        match next_line(lines)? {
            None => break,
            Some(Line::Open) => return Ok(End::Open),
            Some(Line::Seal(handed)) => {
                match seal(rt, lines, open_record, memories.handed(handed))? {
                    Sealed::Reopened(reopened) => open_record = reopened,
                    Sealed::Over(end) => return Ok(end),
                }
            }
            Some(line) => open_answer(&mut open_record, memories, line).print(rt)?,
        }
    }
    Ok(End::Input)
}

fn main(rt: HostRuntime) -> io::Result<()> {
    let mut lines = BufReader::new(rt.alloc(), rt.stdin())?.split(rt.alloc(), b'\n');
    for _ in 0..u64::MAX {
        let mut memories = Memories::new();
        let end = carry_out(&rt, &mut lines, &mut memories)?;
        memories.print(&rt)?;
        match end {
            End::Open => println!(rt; "open")?,
            End::Input => break,
        }
    }
    Ok(())
}
