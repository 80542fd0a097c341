//! The byte layout of a log, as questions to its bytes. Every record begins with two numbers of two bytes, the low byte
//! first: its length, which counts the bytes after itself, and its kind. An event record goes on with thread, kind, mode and
//! location, a byte each, and the writer in two bytes; the end record with the number of events in two bytes.
ghost use Rattle.std.specs.Prelude.{◌≡◌};
ghost use Rattle.runlog.specs.Layout.{event_record, end_record};

use events::raw::RawEvent;

// An event record: length 8 and kind 1, so 10 bytes in all.
pub(crate) const EVENT_SIZE: usize = 10;

// An end record: length 4 and kind 2, so 6 bytes in all.
pub(crate) const END_SIZE: usize = 6;

// Two layouts and two functions: one over the header would be no plainer, since it would still have two bodies to read. Both
// take a place in the bytes, and not the rest of them, so that `get(p..)` stands here and not at each of four calls.

// The numbers in the event record that begins at p, if one does, with all its bytes.
pub(crate) fn event_record(s: &[u8], p: usize) -> Option<RawEvent>
    ensures { result ≡ event_record s.now p }
{
    match s.get(p..)? {
        &[8, 0, 1, 0, thread, kind, mode, location, low, high, ..] => Some(RawEvent {
            thread,
            kind,
            mode,
            location,
            writer: u16::from_le_bytes([low, high]),
        }),
        _ => None,
    }
}

// The count in the end record that begins at p, if one does, with all its bytes.
pub(crate) fn end_record(s: &[u8], p: usize) -> Option<u16>
    ensures { result ≡ end_record s.now p }
{
    match s.get(p..)? {
        &[4, 0, 2, 0, low, high, ..] => Some(u16::from_le_bytes([low, high])),
        _ => None,
    }
}
