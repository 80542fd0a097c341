//! What the program prints of a line.

use events::event::Event;
use events::refusal::{Layer, Refusal};
use events::text::{write_event, write_refused};
use executions::fault::CheckerFault;
use recorder::fault::RecordFault;
use std::io::{ErrorKind, Print};
use std::{io, str};
use writing::put::Full;

#[derive(Clone, Copy)]
pub(crate) enum Answer {
    /// A note gave an event this number.
    Noted(usize),
    Done,
    Counted(usize),
    Shown(Event),
    Damaged,
    RecordRefused(RecordFault),
    CheckerRefused(CheckerFault),
    /// The call would not compile where it stands.
    Barred,
    NotACall,
}

impl From<Result<usize, RecordFault>> for Answer {
    fn from(answer: Result<usize, RecordFault>) -> Self {
        match answer {
            Ok(number) => Answer::Noted(number),
            Err(fault) => Answer::RecordRefused(fault),
        }
    }
}

impl From<Result<(), RecordFault>> for Answer {
    fn from(answer: Result<(), RecordFault>) -> Self {
        match answer {
            Ok(()) => Answer::Done,
            Err(fault) => Answer::RecordRefused(fault),
        }
    }
}

impl From<Result<Event, CheckerFault>> for Answer {
    fn from(answer: Result<Event, CheckerFault>) -> Self {
        match answer {
            Ok(event) => Answer::Shown(event),
            Err(fault) => Answer::CheckerRefused(fault),
        }
    }
}

// Prints what a call wrote at the front of this text, and ends the line.
fn print_written(rt: &impl Print, text: &[u8], written: Result<usize, Full>) -> io::Result<()> {
    let count = written.map_err(|_| ErrorKind::InvalidData)?;
    let front = text.get(..count).unwrap_or(text);
    let characters = str::from_utf8(front).map_err(|_| ErrorKind::InvalidData)?;
    println!(rt; "{characters}")
}

fn print_event(rt: &impl Print, event: &Event) -> io::Result<()> {
    let mut text = [0; 64];
    let written = write_event(event, &mut text);
    print_written(rt, &text, written)
}

// The layer's word, and the refusal.
fn print_refusal<R: Refusal>(rt: &impl Print, refusal: &R) -> io::Result<()> {
    let layer = match refusal.layer() {
        Layer::Record => "record",
        Layer::Log => "log",
        Layer::Checker => "checker",
    };
    print!(rt; "{layer} ")?;
    let mut text = [0; 64];
    let written = write_refused(refusal, &mut text);
    print_written(rt, &text, written)
}

impl Answer {
    pub(crate) fn print(&self, rt: &impl Print) -> io::Result<()> {
        match self {
            Answer::Noted(number) => println!(rt; "event {number}"),
            Answer::Done => println!(rt; "done"),
            Answer::Counted(count) => println!(rt; "count {count}"),
            Answer::Shown(event) => print_event(rt, event),
            Answer::Damaged => println!(rt; "damaged"),
            Answer::RecordRefused(fault) => print_refusal(rt, fault),
            Answer::CheckerRefused(fault) => print_refusal(rt, fault),
            Answer::Barred => println!(rt; "barred"),
            Answer::NotACall => println!(rt; "not a call"),
        }
    }
}
