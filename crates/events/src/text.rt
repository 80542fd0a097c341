//! Events as text, such as `T1 R acq L2 from 4`, and refusals as text, such as `refused 10 66`.
ghost use Rattle.std.specs.Prelude.{◌≡◌, ◌∷◌, Some};
ghost use Rattle.std.specs.Fmt.{formatter_spec, styled_text, WritesOnOk, WritesStyledOnOk};
ghost use Rattle.events.specs.Events.{is_access, writer_of};
ghost use Rattle.events.specs.Text.{kind_letter, mode_word, place_words, spaced, event_text, refused_text};
ghost use Rattle.writing.specs.Writes.{Puts, Writes};

use crate::event::{Event, Kind, Mode};
use crate::refusal::Refusal;
use std::{fmt, str};
use writing::put::{Full, put, put_number};

// What is printed is made of these and of the calls below: they cannot fail, and a `fmt` may.
impl Kind {
    /// R, W, U or F.
    pub fn letter(&self) -> &'static str
        ensures { result.now ≡ kind_letter self.now }
    {
        match self {
            Kind::Read => "R",
            Kind::Write => "W",
            Kind::Update => "U",
            Kind::Fence => "F",
        }
    }
}

impl Mode {
    /// rlx, acq, rel or acqrel.
    pub fn word(&self) -> &'static str
        ensures { result.now ≡ mode_word self.now }
    {
        match self {
            Mode::Relaxed => "rlx",
            Mode::Acquire => "acq",
            Mode::Release => "rel",
            Mode::AcquireRelease => "acqrel",
        }
    }
}

impl fmt::Display for Kind {
    ghost output = { λ k. Some (kind_letter k) };

    ghost styled_output = { λ k s. Some (styled_text s (kind_letter k)) };

    fn fmt<W: fmt::Write>(&self, f: &mut fmt::Formatter<W>) -> fmt::Result {
        f.pad(self.letter())
    }
}

impl fmt::Display for Mode {
    ghost output = { λ m. Some (mode_word m) };

    ghost styled_output = { λ m s. Some (styled_text s (mode_word m)) };

    fn fmt<W: fmt::Write>(&self, f: &mut fmt::Formatter<W>) -> fmt::Result {
        f.pad(self.word())
    }
}

// The mode, and where the event stands. A fence has no location to show, and in a full run only loads have a writer.
fn put_mode_and_place(text: &mut [u8], at: usize, event: &Event) -> usize
    ensures { Puts (spaced (mode_word event.now.mode ∷ place_words (is_access event.now.kind) event.now.location (writer_of event.now))) at text.old text.new result }
{
    let at = put(text, at, event.mode.word().as_bytes());
    if !event.kind.is_access() {
        return at;
    }
    let at = put(text, at, b" L");
    let at = put_number(text, at, usize::from(event.location));
    match event.reads_from() {
        None => at,
        Some(writer) => {
            let at = put(text, at, b" from ");
            put_number(text, at, usize::from(writer))
        }
    }
}

/// Lays the text of an event over memory from this place on, and answers the place behind it.
pub fn put_event(text: &mut [u8], at: usize, event: &Event) -> usize
    ensures { Puts (event_text event.now) at text.old text.new result }
{
    let at = put(text, at, b"T");
    let at = put_number(text, at, usize::from(event.thread));
    let at = put(text, at, b" ");
    let at = put(text, at, event.kind.letter().as_bytes());
    let at = put(text, at, b" ");
    put_mode_and_place(text, at, event)
}

/// Writes the text of an event at the front of this one, and answers how many characters that are.
pub fn write_event(event: &Event, text: &mut [u8]) -> Result<usize, Full>
    ensures { Writes (event_text event.now) text.old text.new result }
{
    if put_event(&mut [], 0, event) > text.len() {
        return Err(Full);
    }
    Ok(put_event(text, 0, event))
}

/// Lays the text of a refusal, its number and its place, over memory from this place on, and answers the place behind it.
pub fn put_refused<R: Refusal>(text: &mut [u8], at: usize, refusal: &R) -> usize
    ensures { Puts (refused_text (R.code refusal.now)) at text.old text.new result }
{
    let at = put(text, at, b"refused ");
    let at = put_number(text, at, usize::from(refusal.number()));
    let at = put(text, at, b" ");
    put_number(text, at, refusal.place())
}

/// Writes the text of a refusal at the front of this one, and answers how many characters that are.
pub fn write_refused<R: Refusal>(refusal: &R, text: &mut [u8]) -> Result<usize, Full>
    ensures { Writes (refused_text (R.code refusal.now)) text.old text.new result }
{
    if put_refused(&mut [], 0, refusal) > text.len() {
        return Err(Full);
    }
    Ok(put_refused(text, 0, refusal))
}

// Pads this text as a `str` is padded.
fn pad<W: fmt::Write>(f: &mut fmt::Formatter<W>, text: &[u8]) -> fmt::Result
    ensures writes { WritesOnOk W.Write.write_str_gives f.old result text.now f.new }
    ensures styled { WritesStyledOnOk W.Write.write_str_gives f.old result (styled_text (formatter_spec f.old) text.now) f.new }
{
    match str::from_utf8(text) {
        Ok(text) => f.pad(text),
        Err(_) => Err(fmt::Error),
    }
}

// No number has more than 20 digits, so every text of an event or of a refusal fits.
const ROOM: usize = 64;

impl fmt::Display for Event {
    ghost output = { λ e. Some (event_text e) };

    ghost styled_output = { λ e s. Some (styled_text s (event_text e)) };

    fn fmt<W: fmt::Write>(&self, f: &mut fmt::Formatter<W>) -> fmt::Result {
        let mut text = [0; ROOM];
        match write_event(self, &mut text) {
            Ok(count) => pad(f, &text[..count]),
            Err(Full) => Err(fmt::Error),
        }
    }
}

/// Any refusal as text: its number and its place.
#[derive(Drop)]
pub struct Refused<R>(pub R);

impl<R: Refusal> fmt::Display for Refused<R> {
    ghost output = { λ r. Some (refused_text (R.code r.0)) };

    ghost styled_output = { λ r s. Some (styled_text s (refused_text (R.code r.0))) };

    fn fmt<W: fmt::Write>(&self, f: &mut fmt::Formatter<W>) -> fmt::Result {
        let mut text = [0; ROOM];
        match write_refused(&self.0, &mut text) {
            Ok(count) => pad(f, &text[..count]),
            Err(Full) => Err(fmt::Error),
        }
    }
}
