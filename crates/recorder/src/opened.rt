//! An open record: the calls that record a run.
ghost use Rattle.std.specs.Prelude.{◌≡◌, ◌+◌, ◌-◌};
ghost use Rattle.recorder.specs.Edits.{unlinked, note_edit, link_edit, retract_edit};
ghost use Rattle.recorder.specs.Record.{on_record, with_number, without_value, obeyed_or, with_place, with_link};
ghost use Rattle.recorder.specs.Refusals.{Refuses, Refusal, NoteFault, LinkFault, RetractFault};

use crate::fault::RecordFault;
use crate::held::Held;
use events::limits::MAX_EVENTS;
use events::raw::RawEvent;
use std::marker::Model;

/// A record that may be added to. It is the number of its events: these lie in memory that the caller holds, and hands to
/// each call.
#[derive(Drop)]
pub struct OpenRecord {
    pub(crate) count: usize,
}

impl Model for OpenRecord {
    // Lines in an impl stand in place of those at the top of the file.
    ghost use Rattle.std.specs.Prelude.{ℕ, ◌≤◌};
    ghost use Rattle.events.specs.Limits.{max_events};

    ghost Value = { ℕ };

    ghost view = { λ r. r.count };

    ghost invariant = { λ r. r.count ≤ max_events };
}

impl OpenRecord {
    /// A record without events.
    pub fn open() -> OpenRecord
        ensures { result ≡ 0 }
    {
        OpenRecord { count: 0 }
    }

    /// Appends an event that has no writer yet, and answers its number.
    pub fn note(
        &mut self,
        memory: &mut [RawEvent],
        thread: u8,
        kind: u8,
        mode: u8,
        location: u8,
    ) -> Result<usize, RecordFault>
        ensures answers { let r = on_record self.old memory.old (note_edit (unlinked thread kind mode location)) in
            result ≡ with_number (self.old + 1) r }
        ensures counts { let r = on_record self.old memory.old (note_edit (unlinked thread kind mode location)) in
            self.new ≡ obeyed_or r (self.old + 1) self.old }
        ensures writes { let x = unlinked thread kind mode location in
            let r = on_record self.old memory.old (note_edit x) in
            memory.new ≡ obeyed_or r (with_place memory.old (self.old + 1) x) memory.old }
        ensures refuses { Refuses (Refusal self.old memory.old (NoteFault (unlinked thread kind mode location))) result }
    {
        let place = RawEvent {
            thread,
            kind,
            mode,
            location,
            writer: 0,
        };
        Held::of(memory, self.count)?.check_note(place)?;
        memory[self.count] = place;
        self.count += 1;
        Ok(self.count)
    }

    /// Sets the writer of a load, in place of an earlier one; 0 clears it.
    pub fn link(
        &self,
        memory: &mut [RawEvent],
        event: usize,
        writer: usize,
    ) -> Result<(), RecordFault>
        ensures answers { result ≡ without_value (on_record self.now memory.old (link_edit event writer)) }
        ensures writes { let r = on_record self.now memory.old (link_edit event writer) in
            memory.new ≡ obeyed_or r (with_link memory.old event writer) memory.old }
        ensures refuses { Refuses (Refusal self.now memory.old (LinkFault event writer)) result }
    {
        Held::of(memory, self.count)?.check_link(event, writer)?;
        memory[event - 1].writer = writer as u16;
        Ok(())
    }

    /// Takes the last event back. It writes nothing.
    pub fn retract(&mut self, memory: &[RawEvent]) -> Result<(), RecordFault>
        ensures answers { result ≡ without_value (on_record self.old memory.now retract_edit) }
        ensures counts { self.new ≡ obeyed_or (on_record self.old memory.now retract_edit) (self.old - 1) self.old }
        ensures refuses { Refuses (Refusal self.old memory.now RetractFault) result }
    {
        Held::of(memory, self.count)?.check_retract()?;
        self.count -= 1;
        Ok(())
    }
}
