//! The records of a log in turn, and then the writers of its events in turn. Event i is in the record after i - 1 others.
ghost use Rattle.std.specs.Prelude.{◌≡◌, ◌≤◌, length};
ghost use Rattle.events.specs.Limits.{max_events};
ghost use Rattle.events.specs.Run.{at, Within};
ghost use Rattle.runlog.specs.Reading.{ended, scanned, recorded, linked, linked_up, reading, answer};

use crate::fault::LogFault;
use crate::layout::{END_SIZE, EVENT_SIZE, end_record, event_record};
use events::event::Event;
use events::limits::MAX_EVENTS;
use std::marker::Model;

// n, if the record after n event records is an end record that counts them, and ends the log. A number and no rest of the
// bytes, since the fault's place is made of it.
fn end_of(s: &[u8], n: usize) -> Result<usize, LogFault>
    requires { n ≤ max_events }
    ensures { result ≡ ended s.now n }
{
    let at = EVENT_SIZE * n;
    if !end_record(s, at).is_some_and(|count| usize::from(count) == n) {
        return Err(LogFault::Shape(at));
    }
    if at + END_SIZE != s.len() {
        return Err(LogFault::Shape(at + END_SIZE));
    }
    Ok(n)
}

// First pass: how many events the log has, or the first fault of its records.
fn scan(s: &[u8]) -> Result<usize, LogFault>
    ensures { result ≡ scanned max_events s.now 0 }
{
    for n in 0..MAX_EVENTS {
        let at = EVENT_SIZE * n;
        let Some(raw) = event_record(s, at) else {
            return end_of(s, n);
        };
        if Event::try_from(raw).is_err() {
            return Err(LogFault::BadEvent(at));
        }
    }
    let at = EVENT_SIZE * MAX_EVENTS;
    if event_record(s, at).is_some() {
        return Err(LogFault::TooMany(at));
    }
    end_of(s, MAX_EVENTS)
}

// Bytes that came through the first pass: event records that are in order, an end record that counts them, and nothing more.
// A contract sees the list of their events, whose writers nobody has looked at yet.
#[derive(Drop)]
pub(crate) struct Records<'a> {
    pub(crate) bytes: &'a [u8],
}

impl<'a> Model for Records<'a> {
    // Lines in an impl stand in place of those at the top of the file.
    ghost use Rattle.std.specs.Prelude.{List, IsOk};
    ghost use Rattle.events.specs.Limits.{max_events};
    ghost use Rattle.events.specs.declared.event.Event.{Event};
    ghost use Rattle.runlog.specs.Reading.{scanned, events_in};

    ghost Value = { List Event };

    ghost view = { λ r. events_in r.bytes.now };

    ghost invariant = { λ r. IsOk (scanned max_events r.bytes.now 0) };
}

// The records of these bytes, or their first fault.
impl<'a> TryFrom<&'a [u8]> for Records<'a> {
    type Error = LogFault;

    ghost try_from_gives = { λ bytes r. r ≡ recorded bytes.now };

    fn try_from(bytes: &'a [u8]) -> Result<Self, LogFault> {
        // How many there are is what the definition gives; `count` knows it from the length.
        scan(bytes)?;
        Ok(Records { bytes })
    }
}

impl<'a> Records<'a> {
    // How many there are.
    pub(crate) fn count(&self) -> usize
        ensures length { result ≡ length self.now }
        ensures bound { result ≤ max_events }
    {
        (self.bytes.len() - END_SIZE) / EVENT_SIZE
    }

    // Event i, from 1 on.
    pub(crate) fn event(&self, i: usize) -> Event
        requires { Within self.now i }
        ensures { result ≡ at self.now i }
    {
        let raw = event_record(self.bytes, EVENT_SIZE * (i - 1)).unwrap();
        Event::try_from(raw).unwrap()
    }

    // Whether event i has the writer that it must have.
    fn is_linked(&self, i: usize) -> bool
        requires { Within self.now i }
        ensures { result ≡ linked self.now i }
    {
        let event = self.event(i);
        let Some(w) = event.reads_from() else {
            return !event.kind.is_load();
        };
        let w = usize::from(w);
        if w > self.count() {
            return false;
        }
        event.kind.is_load() && self.event(w).fits(w, &event, i)
    }

    // Second pass: nothing, or the first event with a writer that it may not have.
    pub(crate) fn check_writers(&self) -> Result<(), LogFault>
        ensures { result ≡ answer (linked_up (length self.now) self.now 0) }
    {
        for k in 0..self.count() {
            if !self.is_linked(k + 1) {
                return Err(LogFault::BadEvent(EVENT_SIZE * k));
            }
        }
        Ok(())
    }
}

// Both passes: nothing where the bytes spell a full run, or the first fault.
pub(crate) fn check(bytes: &[u8]) -> Result<(), LogFault>
    ensures { result ≡ answer (reading bytes.now) }
{
    Records::try_from(bytes)?.check_writers()
}
