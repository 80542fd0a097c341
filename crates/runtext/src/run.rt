//! A run as text, a line an event and then how many there are; and so the run of a log.
ghost use Rattle.std.specs.Prelude.{◌≤◌, length, IsOk};
ghost use Rattle.runlog.specs.Reading.{reading};
ghost use Rattle.runtext.specs.Text.{line_text, log_text, refusal_text, run_text, Tells};
ghost use Rattle.writing.specs.Writes.{Puts, Writes};

use events::event::Event;
use events::limits::MAX_EVENTS;
use events::text::{put_event, put_refused};
use executions::execution::Execution;
use runlog::fault::LogFault;
use runlog::log::Log;
use writing::put::{Full, put, put_number};

/// No text of a run is longer: a line of 25 characters for each of 512 events, and eleven for how many there are.
pub const LONGEST_RUN: usize = 25 * MAX_EVENTS + 11;

// A line of the run.
fn put_event_line(text: &mut [u8], at: usize, event: &Event) -> usize
    ensures { Puts (line_text event.now) at text.old text.new result }
{
    let at = put_event(text, at, event);
    put(text, at, b"\n")
}

// The lines of the run, and how many there are.
fn put_run<E: Execution>(text: &mut [u8], place: usize, run: &E) -> usize
    ensures { Puts (run_text (E.Execution.events run.now)) place text.old text.new result }
{
    let mut at = place;
    for event in run.iter() {
        at = put_event_line(text, at, &event);
    }
    let at = put_number(text, at, run.count());
    put(text, at, b" events\n")
}

/// Writes the text of a run at the front of this one, and answers how many characters that are. Every other place of the text is as
/// it was. Where it does not fit it is refused, and all is as it was; a text of `LONGEST_RUN` places always suffices.
pub fn write_run<E: Execution>(run: &E, text: &mut [u8]) -> Result<usize, Full>
    ensures text { Writes (run_text (E.Execution.events run.now)) text.old text.new result }
    ensures suffices { LONGEST_RUN ≤ length text.old → IsOk result }
{
    if put_run(&mut [], 0, run) > text.len() {
        return Err(Full);
    }
    Ok(put_run(text, 0, run))
}

// The line of a refusal.
fn put_refusal(text: &mut [u8], at: usize, fault: LogFault) -> usize
    ensures { Puts (refusal_text fault) at text.old text.new result }
{
    let at = put(text, at, b"log ");
    let at = put_refused(text, at, &fault);
    put(text, at, b"\n")
}

/// Writes the line of a log's refusal at the front of this text, and answers how many characters that are. Every other place of the
/// text is as it was. Where it does not fit it is refused, and all is as it was.
pub fn write_refusal(fault: LogFault, text: &mut [u8]) -> Result<usize, Full>
    ensures { Writes (refusal_text fault) text.old text.new result }
{
    if put_refusal(&mut [], 0, fault) > text.len() {
        return Err(Full);
    }
    Ok(put_refusal(text, 0, fault))
}

/// Writes the text of a log, its run or why it is refused, as `write_run` writes a run: `LONGEST_RUN` places suffice here too.
pub fn write_log(bytes: &[u8], text: &mut [u8]) -> Result<usize, Full>
    ensures text { Writes (log_text (reading bytes.now)) text.old text.new result }
    ensures tells { Tells bytes.now (log_text (reading bytes.now)) }
    ensures suffices { LONGEST_RUN ≤ length text.old → IsOk result }
{
    match Log::try_from(bytes) {
        Ok(log) => write_run(&log, text),
        Err(fault) => write_refusal(fault, text),
    }
}
