//! What stands in the places of a record's events, and what each call asks of it before it writes.
ghost use Rattle.std.specs.Prelude.{◌≡◌, ◌≤◌, length};
ghost use Rattle.events.specs.Limits.{max_events};
ghost use Rattle.events.specs.Run.{at, may_read};
ghost use Rattle.recorder.specs.Places.{event_of, place_of, fitted, sound, first_damaged, events_in};
ghost use Rattle.recorder.specs.Lowest.{lowest};
ghost use Rattle.recorder.specs.Edits.{note_edit, link_edit, retract_edit, seal_edit, is_reader_of, lacks_writer};
ghost use Rattle.recorder.specs.Record.{without_value};

use crate::fault::RecordFault;
use events::event::{Event, Kind, Mode};
use events::limits::MAX_EVENTS;
use events::raw::RawEvent;
use std::marker::Model;

// What stands where there is no event.
const NO_EVENT: Event = Event {
    thread: 0,
    kind: Kind::Fence,
    mode: Mode::Relaxed,
    location: 0,
    writer: 0,
};

// A place as an event, whatever its numbers are.
fn event_of(place: &RawEvent) -> Event
    ensures { result ≡ event_of place.now }
{
    Event {
        thread: place.thread,
        kind: Kind::try_from(place.kind).unwrap_or(Kind::Fence),
        mode: Mode::try_from(place.mode).unwrap_or(Mode::Relaxed),
        location: place.location,
        writer: place.writer,
    }
}

// The places of a record's events. A contract sees the list of the events.
#[derive(Drop)]
pub(crate) struct Held<'m> {
    pub(crate) places: &'m [RawEvent],
}

impl<'m> Model for Held<'m> {
    // Lines in an impl stand in place of those at the top of the file.
    ghost use Rattle.std.specs.Prelude.{List, length, ◌≤◌};
    ghost use Rattle.events.specs.Limits.{max_events};
    ghost use Rattle.events.specs.declared.event.Event.{Event};
    ghost use Rattle.recorder.specs.Places.{events_of};

    ghost Value = { List Event };

    ghost view = { λ h. events_of h.places.now };

    ghost invariant = { λ h. length h.places.now ≤ max_events };
}

impl<'m> Held<'m> {
    // How many there are.
    pub(crate) fn count(&self) -> usize
        ensures length { result ≡ length self.now }
        ensures bound { result ≤ max_events }
    {
        self.places.len()
    }

    // Event i, from 1 on.
    pub(crate) fn event(&self, i: usize) -> Event
        ensures { result ≡ at self.now i }
    {
        if i == 0 {
            return NO_EVENT;
        }
        match self.places.get(i - 1) {
            Some(place) => event_of(place),
            None => NO_EVENT,
        }
    }

    // Whether event i is a load that w fits.
    fn may_read(&self, w: usize, i: usize) -> bool
        ensures { result ≡ may_read self.now w i }
    {
        let load = self.event(i);
        load.kind.is_load() && self.event(w).fits(w, &load, i)
    }

    // Whether the writer of event i fits, if it has one.
    fn is_fitted(&self, i: usize) -> bool
        ensures { result ≡ fitted self.now i }
    {
        match self.event(i).reads_from() {
            None => true,
            Some(w) => self.may_read(usize::from(w), i),
        }
    }

    // Whether event i is a load that reads from w.
    fn is_reader_of(&self, w: usize, i: usize) -> bool
        ensures { result ≡ is_reader_of self.now w i }
    {
        let event = self.event(i);
        event.kind.is_load() && usize::from(event.writer) == w
    }

    // Whether event i is a load without a writer.
    fn lacks_writer(&self, i: usize) -> bool
        ensures { result ≡ lacks_writer self.now i }
    {
        let event = self.event(i);
        event.kind.is_load() && event.reads_from().is_none()
    }

    // The lowest load that reads from w.
    fn reader_of(&self, w: usize) -> Option<usize>
        ensures { result ≡ lowest (is_reader_of self.now w) (length self.now) }
    {
        let count = self.count();
        (1..count + 1).find(|&i| self.is_reader_of(w, i))
    }

    // The lowest load without a writer.
    fn first_without_writer(&self) -> Option<usize>
        ensures { result ≡ lowest (lacks_writer self.now) (length self.now) }
    {
        let count = self.count();
        (1..count + 1).find(|&i| self.lacks_writer(i))
    }

    // The events of a record that counts so many of them, or what is wrong with the memory that it is handed.
    pub(crate) fn of(memory: &'m [RawEvent], count: usize) -> Result<Held<'m>, RecordFault>
        requires { count ≤ max_events }
        ensures { result ≡ events_in count memory.now }
    {
        if memory.len() < MAX_EVENTS {
            return Err(RecordFault::ShortMemory);
        }
        let places = &memory[..count];
        match first_damaged(places) {
            None => Ok(Held { places }),
            Some(i) => Err(RecordFault::Damaged(i)),
        }
    }

    // Whether an event with these numbers may be noted.
    pub(crate) fn check_note(&self, place: RawEvent) -> Result<(), RecordFault>
        ensures { result ≡ without_value (note_edit place self.now) }
    {
        Event::try_from(place)?;
        if self.count() >= MAX_EVENTS {
            return Err(RecordFault::TooMany);
        }
        Ok(())
    }

    // Whether event i may be given the writer w.
    pub(crate) fn check_link(&self, i: usize, w: usize) -> Result<(), RecordFault>
        ensures { result ≡ without_value (link_edit i w self.now) }
    {
        if !(1..=self.count()).contains(&i) {
            return Err(RecordFault::NoEvent(i));
        }
        if !self.event(i).kind.is_load() {
            return Err(RecordFault::NotALoad(i));
        }
        if w != 0 && !self.may_read(w, i) {
            return Err(RecordFault::Unfit(i));
        }
        Ok(())
    }

    // Whether the last event may be taken back.
    pub(crate) fn check_retract(&self) -> Result<(), RecordFault>
        ensures { result ≡ without_value (retract_edit self.now) }
    {
        if self.count() == 0 {
            return Err(RecordFault::NoEvents);
        }
        match self.reader_of(self.count()) {
            None => Ok(()),
            Some(i) => Err(RecordFault::StillRead(i)),
        }
    }

    // Whether nothing is left open.
    pub(crate) fn check_seal(&self) -> Result<(), RecordFault>
        ensures { result ≡ without_value (seal_edit self.now) }
    {
        match self.first_without_writer() {
            None => Ok(()),
            Some(i) => Err(RecordFault::NoWriter(i)),
        }
    }
}

// Whether the place of event i holds what an event may be that was noted and linked.
fn is_sound(places: &[RawEvent], i: usize) -> bool
    requires number { 1 ≤ i }
    requires few { length places.now ≤ max_events }
    ensures { result ≡ sound places.now i }
{
    match places.get(i - 1) {
        Some(place) => Event::try_from(*place).is_ok() && Held { places }.is_fitted(i),
        None => false,
    }
}

// The lowest event whose place does not.
fn first_damaged(places: &[RawEvent]) -> Option<usize>
    requires { length places.now ≤ max_events }
    ensures { result ≡ first_damaged places.now }
{
    (1..places.len() + 1).find(|&i| !is_sound(places, i))
}
