// Memory, calls and answers, written as words.
use events::raw::RawEvent;
use sessions::calls::{Answer, Call};
use sessions::handed::{Handed, ShortPart};
use std::alloc::{AllocError, Global};
use std::test::Fail;

// What lies in the places that are not written out. It is no event, and nothing may depend on it.
pub(crate) const JUNK: RawEvent = RawEvent {
    thread: 9,
    kind: 9,
    mode: 9,
    location: 99,
    writer: 999,
};

// `1.2.0.64` is thread, kind, mode and location; a fifth number is the writer.
fn place(text: &str) -> Result<RawEvent, Fail> {
    let mut numbers = [0u16; 5];
    for (number, word) in numbers.iter_mut().zip(text.split('.')) {
        *number = word.parse()?;
    }
    let [thread, kind, mode, location, writer] = numbers;
    Ok(RawEvent {
        thread: u8::try_from(thread)?,
        kind: u8::try_from(kind)?,
        mode: u8::try_from(mode)?,
        location: u8::try_from(location)?,
        writer,
    })
}

// So many places of memory, of which the first are written out, `511x1.4.0.0` for 511 of a kind; and how many of these
// stand before the first `/`, behind which the memory goes on after the last event.
pub(crate) fn memory(
    heap: Global,
    places: usize,
    text: &str,
) -> Result<(Vec<RawEvent>, usize), Fail> {
    let mut memory = Vec::new(heap);
    let mut count = None;
    for word in text.split_whitespace() {
        if word == "/" {
            count = count.or(Some(memory.len()));
            continue;
        }
        let (times, numbers) = word.split_once('x').unwrap_or(("1", word));
        for _ in 0..times.parse::<usize>()? {
            memory.push(place(numbers)?)?;
        }
    }
    let count = count.unwrap_or(memory.len());
    memory.resize(places, JUNK)?;
    Ok((memory, count))
}

// `512` is so many places of the record's own memory, `o3+511` so many of the other memory, from place 3 on.
fn handed(word: &str) -> Result<Handed, Fail> {
    let Some(part) = word.strip_prefix("o") else {
        return Ok(Handed::Own(word.parse()?));
    };
    let (from, places) = part.split_once('+').unwrap_or((part, ""));
    match ShortPart::new(from.parse()?, places.parse()?) {
        Some(part) => Ok(Handed::Other(part)),
        None => Err(Fail::new("no short part")),
    }
}

// `note 512 1 2 0 64` is handed 512 places, as are `link 512 2 1`, `retract 512` and `seal 512`.
pub(crate) fn call(text: &str) -> Result<Call, Fail> {
    let mut words = text.split_whitespace();
    let name = words.next().unwrap_or("");
    let first = words.next().unwrap_or("0");
    let mut numbers = [0usize; 4];
    for (number, word) in numbers.iter_mut().zip(words) {
        *number = word.parse()?;
    }
    let [second, third, fourth, fifth] = numbers;
    match name {
        "note" => Ok(Call::Note {
            handed: handed(first)?,
            thread: u8::try_from(second)?,
            kind: u8::try_from(third)?,
            mode: u8::try_from(fourth)?,
            location: u8::try_from(fifth)?,
        }),
        "link" => Ok(Call::Link {
            handed: handed(first)?,
            event: second,
            writer: third,
        }),
        "retract" => Ok(Call::Retract {
            handed: handed(first)?,
        }),
        "seal" => Ok(Call::Seal {
            handed: handed(first)?,
        }),
        "reopen" => Ok(Call::Reopen),
        "count" => Ok(Call::Count),
        "event" => Ok(Call::Event(first.parse()?)),
        _ => Err(Fail::new("no such call")),
    }
}

// Numbers in place of the cases of a fault, since documented are the numbers.
pub(crate) fn said(heap: Global, answer: Answer) -> Result<String, AllocError> {
    match answer {
        Answer::Noted(number) => format!(in heap; "noted {number}"),
        Answer::Done => format!(in heap; "done"),
        Answer::Refused(fault) => fault.to_string(heap),
        Answer::Counted(count) => format!(in heap; "count {count}"),
        Answer::Shown(event) => event.to_string(heap),
        Answer::NotShown(fault) => format!(in heap; "not shown, {fault}"),
        Answer::Barred => format!(in heap; "barred"),
    }
}
