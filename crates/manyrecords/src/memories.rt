//! The two memories of a list of calls.

use crate::line::{Damage, Handed, Memory, OTHER_PLACES, OWN_PLACES};
use events::raw::RawEvent;
use std::io;
use std::io::Print;

const NO_EVENT: RawEvent = RawEvent {
    thread: 0,
    kind: 0,
    mode: 0,
    location: 0,
    writer: 0,
};

#[derive(Drop)]
pub(crate) struct Memories {
    own: [RawEvent; OWN_PLACES],
    other: [RawEvent; OTHER_PLACES],
}

impl Memories {
    pub(crate) fn new() -> Memories {
        Memories {
            own: [NO_EVENT; OWN_PLACES],
            other: [NO_EVENT; OTHER_PLACES],
        }
    }

    fn places(&self, memory: Memory) -> &[RawEvent] {
        match memory {
            Memory::Own => &self.own,
            Memory::Other => &self.other,
        }
    }

    fn places_mut(&mut self, memory: Memory) -> &mut [RawEvent] {
        match memory {
            Memory::Own => &mut self.own,
            Memory::Other => &mut self.other,
        }
    }

    /// The places that a call is handed, to be read.
    pub(crate) fn handed(&self, handed: Handed) -> &[RawEvent] {
        let places = self.places(handed.memory);
        &places[..handed.places.min(places.len())]
    }

    /// The places that a call is handed, to be written.
    pub(crate) fn handed_mut(&mut self, handed: Handed) -> &mut [RawEvent] {
        let places = self.places_mut(handed.memory);
        let end = handed.places.min(places.len());
        &mut places[..end]
    }

    /// Writes over a field of a place, whose number is counted from 1 on.
    pub(crate) fn damage(&mut self, memory: Memory, number: usize, damage: Damage) {
        let Some(k) = number.checked_sub(1) else {
            return;
        };
        let Some(place) = self.places_mut(memory).get_mut(k) else {
            return;
        };
        match damage {
            Damage::Thread(thread) => place.thread = thread,
            Damage::Kind(kind) => place.kind = kind,
            Damage::Mode(mode) => place.mode = mode,
            Damage::Location(location) => place.location = location,
            Damage::Writer(writer) => place.writer = writer,
        }
    }

    /// Prints each place that is not all 0.
    pub(crate) fn print(&self, rt: &impl Print) -> io::Result<()> {
        for memory in [Memory::Own, Memory::Other] {
            for (k, place) in self.places(memory).iter().enumerate() {
                if *place != NO_EVENT {
                    print_place(rt, memory, k + 1, *place)?;
                }
            }
        }
        Ok(())
    }
}

fn print_place(rt: &impl Print, memory: Memory, number: usize, place: RawEvent) -> io::Result<()> {
    let word = memory.word();
    let RawEvent {
        thread,
        kind,
        mode,
        location,
        writer,
    } = place;
    println!(rt; "{word} {number}: {thread} {kind} {mode} {location} {writer}")
}
