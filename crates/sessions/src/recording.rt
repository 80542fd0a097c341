//! The calls that record a given run.
ghost use Rattle.std.specs.Prelude.{◌≡◌, ◌+◌, ◌≤◌, true, is_some, length};
ghost use Rattle.events.specs.Events.{kind_number, mode_number, is_load};
ghost use Rattle.events.specs.Run.{at};
ghost use Rattle.sessions.specs.Recording.{note_of, loads, notes, links, questions, recording, Records, Heads, Writes};

use crate::calls::Call;
use crate::handed::Handed;
use events::event::{Event, Kind, Mode};
use events::limits::MAX_EVENTS;
use executions::execution::Execution;

/// The most calls that it takes to record a run: a note, a link and a question for each event, the seal and the question of how
/// many events there are.
pub const MOST_CALLS: usize = 3 * MAX_EVENTS + 2;

fn kind_number(kind: Kind) -> u8
    ensures { result ≡ kind_number kind }
{
    match kind {
        Kind::Read => 1,
        Kind::Write => 2,
        Kind::Update => 3,
        Kind::Fence => 4,
    }
}

fn mode_number(mode: Mode) -> u8
    ensures { result ≡ mode_number mode }
{
    match mode {
        Mode::Relaxed => 0,
        Mode::Acquire => 1,
        Mode::Release => 2,
        Mode::AcquireRelease => 3,
    }
}

// Event i, or the event that stands for none.
fn event_at<E: Execution>(run: &E, i: usize) -> Event
    ensures { result ≡ at (E.Execution.events run.now) i }
{
    run.event(i).unwrap_or(Event {
        thread: 0,
        kind: Kind::Fence,
        mode: Mode::Relaxed,
        location: 0,
        writer: 0,
    })
}

fn note_of(event: Event) -> Call
    ensures { result ≡ note_of event }
{
    Call::Note {
        handed: Handed::Own(MAX_EVENTS),
        thread: event.thread,
        kind: kind_number(event.kind),
        mode: mode_number(event.mode),
        location: event.location,
    }
}

// How many loads the run has.
fn load_count<E: Execution>(run: &E) -> usize
    ensures { result ≡ length (loads (E.Execution.events run.now)) }
{
    let mut count = 0;
    for i in 1..run.count() + 1 {
        if event_at(run, i).kind.is_load() {
            count += 1;
        }
    }
    count
}

fn write_notes<E: Execution>(run: &E, calls: &mut [Call])
    requires { length (E.Execution.events run.now) ≤ length calls.old }
    ensures { Heads (notes (E.Execution.events run.now)) calls.old calls.new }
{
    for i in 1..run.count() + 1 {
        calls[i - 1] = note_of(event_at(run, i));
    }
}

fn write_links<E: Execution>(run: &E, calls: &mut [Call])
    requires { length (E.Execution.events run.now) ≤ length calls.old }
    ensures { Heads (links (E.Execution.events run.now)) calls.old calls.new }
{
    let mut next = 0;
    for i in 1..run.count() + 1 {
        let event = event_at(run, i);
        if event.kind.is_load() {
            calls[next] = Call::Link {
                handed: Handed::Own(MAX_EVENTS),
                event: i,
                writer: usize::from(event.writer),
            };
            next += 1;
        }
    }
}

fn write_questions<E: Execution>(run: &E, calls: &mut [Call])
    requires { length (E.Execution.events run.now) + 2 ≤ length calls.old }
    ensures { Heads (questions (E.Execution.events run.now)) calls.old calls.new }
{
    calls[0] = Call::Seal {
        handed: Handed::Own(MAX_EVENTS),
    };
    calls[1] = Call::Count;
    for i in 1..run.count() + 1 {
        calls[i + 1] = Call::Event(i);
    }
}

/// Writes the calls that record the run, and answers how many they are: each event is noted, each load linked to its writer, and
/// the record sealed; then it is asked how many events it has, and what each one is. Where there is no room for all of them, none
/// is written; `MOST_CALLS` places are enough for every run.
pub fn recording<E: Execution>(run: &E, calls: &mut [Call]) -> Option<usize>
    ensures writes { Writes (recording (E.Execution.events run.now)) calls.old calls.new result }
    ensures enough { MOST_CALLS ≤ length calls.old → is_some result ≡ true }
    // Over memory that is long enough all these calls are obeyed, and the record shows this run.
    ensures records { Records (E.Execution.events run.now) }
{
    let count = run.count();
    let linked = count + load_count(run);
    if calls.len() < linked + count + 2 {
        return None;
    }
    write_notes(run, calls);
    write_links(run, &mut calls[count..]);
    write_questions(run, &mut calls[linked..]);
    Some(linked + count + 2)
}
