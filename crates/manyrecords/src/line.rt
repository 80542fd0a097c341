//! The lines that the program reads.

use std::str::{Split, from_utf8};

/// How many places each memory has.
pub(crate) const OWN_PLACES: usize = 520;

pub(crate) const OTHER_PLACES: usize = 511;

/// One of the two memories.
#[derive(Clone, Copy)]
pub(crate) enum Memory {
    /// The record's own.
    Own,
    /// Memory that is another's.
    Other,
}

/// The memory that a call is handed: so many places from the first on, or all where there are fewer.
#[derive(Clone, Copy)]
pub(crate) struct Handed {
    pub(crate) memory: Memory,
    pub(crate) places: usize,
}

/// A field of a place, and what is written over it.
#[derive(Clone, Copy)]
pub(crate) enum Damage {
    Thread(u8),
    Kind(u8),
    Mode(u8),
    Location(u8),
    Writer(u16),
}

#[derive(Clone, Copy)]
pub(crate) enum Line {
    Open,
    Note {
        handed: Handed,
        thread: u8,
        kind: u8,
        mode: u8,
        location: u8,
    },
    Link {
        handed: Handed,
        event: usize,
        writer: usize,
    },
    Retract(Handed),
    Seal(Handed),
    Reopen,
    Count,
    Event(usize),
    Damage {
        memory: Memory,
        place: usize,
        damage: Damage,
    },
    NotACall,
}

// The largest numbers that lines may hold.
const MOST_HANDED: usize = 999_999;

const MOST_EVENTS: usize = 4_294_967_295;

impl Memory {
    pub(crate) fn places(&self) -> usize {
        match self {
            Memory::Own => OWN_PLACES,
            Memory::Other => OTHER_PLACES,
        }
    }

    pub(crate) fn word(&self) -> &'static str {
        match self {
            Memory::Own => "own",
            Memory::Other => "other",
        }
    }
}

/// The line with these bytes, without its line feed.
impl From<&[u8]> for Line {
    fn from(bytes: &[u8]) -> Self {
        let Ok(text) = from_utf8(bytes) else {
            return Line::NotACall;
        };
        one_call(text).unwrap_or(Line::NotACall)
    }
}

// A call, if the text is just one.
fn one_call(text: &str) -> Option<Line> {
    let mut words = text.split(' ');
    let line = next_call(&mut words)?;
    match words.next() {
        None => Some(line),
        Some(_) => None,
    }
}

// The call that the words begin with.
fn next_call(words: &mut Split<'_, char>) -> Option<Line> {
    Some(match words.next()? {
        "open" => Line::Open,
        "note" => Line::Note {
            handed: next_handed(words)?,
            thread: next_byte(words)?,
            kind: next_byte(words)?,
            mode: next_byte(words)?,
            location: next_byte(words)?,
        },
        "link" => Line::Link {
            handed: next_handed(words)?,
            event: next_number(words, MOST_EVENTS)?,
            writer: next_number(words, MOST_EVENTS)?,
        },
        "retract" => Line::Retract(next_handed(words)?),
        "seal" => Line::Seal(next_handed(words)?),
        "reopen" => Line::Reopen,
        "count" => Line::Count,
        "event" => Line::Event(next_number(words, MOST_EVENTS)?),
        "damage" => {
            let memory = next_memory(words)?;
            Line::Damage {
                memory,
                place: next_place(words, memory)?,
                damage: next_damage(words)?,
            }
        }
        _ => return None,
    })
}

fn next_memory(words: &mut Split<'_, char>) -> Option<Memory> {
    match words.next()? {
        "own" => Some(Memory::Own),
        "other" => Some(Memory::Other),
        _ => None,
    }
}

fn next_handed(words: &mut Split<'_, char>) -> Option<Handed> {
    Some(Handed {
        memory: next_memory(words)?,
        places: next_number(words, MOST_HANDED)?,
    })
}

// The number of a place of the memory, from 1 on.
fn next_place(words: &mut Split<'_, char>, memory: Memory) -> Option<usize> {
    next_number(words, memory.places()).filter(|&place| place != 0)
}

fn next_damage(words: &mut Split<'_, char>) -> Option<Damage> {
    Some(match words.next()? {
        "thread" => Damage::Thread(next_byte(words)?),
        "kind" => Damage::Kind(next_byte(words)?),
        "mode" => Damage::Mode(next_byte(words)?),
        "location" => Damage::Location(next_byte(words)?),
        "writer" => Damage::Writer(u16::try_from(next_number(words, 65_535)?).ok()?),
        _ => return None,
    })
}

fn next_byte(words: &mut Split<'_, char>) -> Option<u8> {
    u8::try_from(next_number(words, 255)?).ok()
}

// A decimal number up to the most, without a sign, and without a leading zero but in 0 itself.
fn next_number(words: &mut Split<'_, char>, most: usize) -> Option<usize> {
    let word = words.next()?;
    if !word.bytes().all(|b| b.is_ascii_digit()) || (word.starts_with('0') && word != "0") {
        return None;
    }
    word.parse::<usize>().ok().filter(|&n| n <= most)
}
