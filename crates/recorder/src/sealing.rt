//! Sealing a record into a place that the caller holds. It stands apart from the other calls, since its clauses speak of both kinds
//! of record.
ghost use Rattle.std.specs.Prelude.{◌≡◌, ◌≤◌, IfErr};
ghost use Rattle.events.specs.Limits.{max_events};
ghost use Rattle.recorder.specs.Edits.{seal_edit};
ghost use Rattle.recorder.specs.Record.{on_record, without_value};
ghost use Rattle.recorder.specs.Sealing.{outcome_of, Fills};
ghost use Rattle.recorder.specs.Refusals.{Refuses, Refusal, SealFault};

use crate::fault::RecordFault;
use crate::held::Held;
use crate::opened::OpenRecord;
use crate::sealed::SealedRecord;
use events::raw::RawEvent;

/// A record that could not be sealed, handed back as it was, and why.
#[derive(Drop)]
pub struct NotSealed {
    pub record: OpenRecord,
    pub fault: RecordFault,
}

// Whether the record that counts so many events may be sealed.
fn check_sealing(memory: &[RawEvent], count: usize) -> Result<(), RecordFault>
    requires { count ≤ max_events }
    ensures { result ≡ without_value (on_record count memory.now seal_edit) }
{
    Held::of(memory, count)?.check_seal()
}

impl OpenRecord {
    /// Seals the record into the caller's place, which then holds the memory for reading; or hands the record back, and leaves
    /// the place as it is. Even so the place then counts as borrowing the memory: try again with a new one.
    // What a caller goes on using is filled where the caller holds it, so the sealed record is no part of the answer.
    pub fn seal<'m>(
        self,
        memory: &'m [RawEvent],
        into: &mut SealedRecord<'m>,
    ) -> Result<(), NotSealed>
        ensures answers { outcome_of result ≡ without_value (on_record self memory.now seal_edit) }
        ensures hands_back { IfErr result (λ e. e.record ≡ self) }
        ensures fills { Fills self memory.now into.old into.new (on_record self memory.now seal_edit) }
        ensures refuses { Refuses (Refusal self memory.now SealFault) (outcome_of result) }
    {
        if let Err(fault) = check_sealing(memory, self.count) {
            return Err(NotSealed {
                record: self,
                fault,
            });
        }
        *into = SealedRecord {
            places: &memory[..self.count],
        };
        Ok(())
    }
}
