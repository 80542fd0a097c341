//! Carrying out calls that are given as values.
ghost use Rattle.std.specs.Prelude.{◌≡◌, ◌<◌, ◌≤◌, Some, Ok, length, min};
ghost use Rattle.recorder.specs.Edits.{seal_edit};
ghost use Rattle.recorder.specs.Record.{on_record};
ghost use Rattle.recorder.specs.Sealing.{run_of};
ghost use Rattle.sessions.specs.Handed.{handed_to};
ghost use Rattle.sessions.specs.Reference.{sealed_answer};
ghost use Rattle.sessions.specs.Carrying.{handed_by, PartCall, OpenCall, UntilReopened, SealCall};
ghost use Rattle.sessions.specs.Replayed.{Replayed};

use crate::calls::{Answer, Call};
use crate::handed::Handed;
use events::raw::RawEvent;
use executions::execution::Execution;
use recorder::opened::OpenRecord;
use recorder::sealed::SealedRecord;

// The places that a call is handed, for reading.
fn handed_to<'m>(handed: Handed, memory: &'m [RawEvent], others: &'m [RawEvent]) -> &'m [RawEvent]
    ensures { result.now ≡ handed_to handed memory.now others.now }
{
    match handed {
        Handed::Own(places) => &memory[..places.min(memory.len())],
        Handed::Other(part) => {
            let (from, to) = part.bounds(others.len());
            &others[from..to]
        }
    }
}

// The answer to a call while the record is sealed. Reopening it is not done here.
fn sealed_answer(sealed: &SealedRecord<'_>, call: Call) -> Answer
    ensures { result ≡ sealed_answer (run_of sealed.now) call }
{
    match call {
        Call::Reopen => Answer::Done,
        Call::Count => Answer::Counted(sealed.count()),
        Call::Event(i) => match sealed.event(i) {
            Ok(event) => Answer::Shown(event),
            Err(fault) => Answer::NotShown(fault),
        },
        _ => Answer::Barred,
    }
}

// Carries out the calls after so many others while the record is sealed: up to the call that reopens it, if one does. The
// record is then open before the call of the number that comes with it.
fn until_reopened(
    sealed: SealedRecord<'_>,
    calls: &[Call],
    answers: &mut [Answer],
    from: usize,
) -> Option<(OpenRecord, usize)>
    requires { from ≤ min (length calls.now) (length answers.old) }
    ensures { UntilReopened (run_of sealed.entry) calls.now answers.old answers.new from result }
{
    for k in from..calls.len().min(answers.len()) {
        let call = calls[k];
        answers[k] = sealed_answer(&sealed, call);
        if let Call::Reopen = call {
            return Some((sealed.reopen(), k + 1));
        }
    }
    None
}

// Notes, links or takes back, in just this memory.
fn part_answer(open_record: &mut OpenRecord, part: &mut [RawEvent], call: Call) -> Answer
    ensures { PartCall call open_record.old part.old open_record.new part.new result }
{
    match call {
        Call::Note {
            thread,
            kind,
            mode,
            location,
            ..
        } => Answer::from(open_record.note(part, thread, kind, mode, location)),
        Call::Link { event, writer, .. } => Answer::from(open_record.link(part, event, writer)),
        Call::Retract { .. } => Answer::from(open_record.retract(part)),
        Call::Seal { .. } | Call::Reopen | Call::Count | Call::Event(_) => Answer::Barred,
    }
}

// Notes, links or takes back, in the memory that the call is handed.
fn handed_answer(
    open_record: &mut OpenRecord,
    memory: &mut [RawEvent],
    others: &mut [RawEvent],
    call: Call,
    handed: Handed,
) -> Answer
    requires { handed_by call ≡ Some handed }
    ensures { OpenCall call open_record.old memory.old others.old open_record.new memory.new others.new (Ok result) }
{
    match handed {
        Handed::Own(places) => {
            let end = places.min(memory.len());
            part_answer(open_record, &mut memory[..end], call)
        }
        Handed::Other(part) => {
            let (from, to) = part.bounds(others.len());
            part_answer(open_record, &mut others[from..to], call)
        }
    }
}

// Carries out a call of an open record; or the memory that is handed to one that seals it, which takes the record.
fn open_answer(
    open_record: &mut OpenRecord,
    memory: &mut [RawEvent],
    others: &mut [RawEvent],
    call: Call,
) -> Result<Answer, Handed>
    ensures { OpenCall call open_record.old memory.old others.old open_record.new memory.new others.new result }
{
    match call {
        Call::Note { handed, .. } | Call::Link { handed, .. } | Call::Retract { handed } => Ok(
            handed_answer(open_record, memory, others, call, handed),
        ),
        Call::Seal { handed } => Err(handed),
        Call::Reopen | Call::Count | Call::Event(_) => Ok(Answer::Barred),
    }
}

// Seals the record by the call after so many others, if it may be, and goes on until it is reopened.
fn seal_from(
    open_record: OpenRecord,
    memory: &[RawEvent],
    calls: &[Call],
    answers: &mut [Answer],
    next: usize,
) -> Option<(OpenRecord, usize)>
    requires { next < min (length calls.now) (length answers.old) }
    ensures { SealCall open_record calls.now answers.old answers.new next (on_record open_record memory.now seal_edit) result }
{
    let mut sealed = SealedRecord::empty();
    match open_record.seal(memory, &mut sealed) {
        Ok(()) => {
            answers[next] = Answer::Done;
            until_reopened(sealed, calls, answers, next + 1)
        }
        Err(refused) => {
            answers[next] = Answer::Refused(refused.fault);
            Some((refused.record, next + 1))
        }
    }
}

/// Carries the calls out on one record, one after another: as many of them as there are places for answers. The record lies in
/// the memory; the other memory is anyone else's.
pub fn replay(
    calls: &[Call],
    memory: &mut [RawEvent],
    others: &mut [RawEvent],
    answers: &mut [Answer],
)
    ensures { Replayed calls.now memory.old memory.new others.old others.new answers.old answers.new }
{
    let mut open_record = OpenRecord::open();
    let mut next = 0;
    while next < calls.len().min(answers.len()) {
        match open_answer(&mut open_record, memory, others, calls[next]) {
            Ok(answer) => {
                answers[next] = answer;
                next += 1;
            }
            Err(handed) => {
                let part = handed_to(handed, memory, others);
                let Some(reopened) = seal_from(open_record, part, calls, answers, next) else {
                    return;
                };
                (open_record, next) = reopened;
            }
        }
    }
}
