// Runs, written as words.
use events::raw::RawEvent;
use recorder::opened::OpenRecord;
use std::test::Fail;

// What lies in the memory behind the events.
pub(crate) const BLANK: RawEvent = RawEvent {
    thread: 0,
    kind: 0,
    mode: 0,
    location: 0,
    writer: 0,
};

fn kind(letter: &str) -> Result<u8, Fail> {
    match letter {
        "R" => Ok(1),
        "W" => Ok(2),
        "U" => Ok(3),
        "F" => Ok(4),
        _ => Err(Fail::new("no such kind")),
    }
}

fn mode(word: &str) -> Result<u8, Fail> {
    match word {
        "rlx" => Ok(0),
        "acq" => Ok(1),
        "rel" => Ok(2),
        "acqrel" => Ok(3),
        _ => Err(Fail::new("no such mode")),
    }
}

// `3.U.acqrel.1.2` is thread, kind, mode, location and writer. Only loads have the last, and a fence has no location either.
pub(crate) fn event(word: &str) -> Result<RawEvent, Fail> {
    let mut parts = word.split('.');
    Ok(RawEvent {
        thread: parts.next().unwrap_or("").parse()?,
        kind: kind(parts.next().unwrap_or(""))?,
        mode: mode(parts.next().unwrap_or(""))?,
        location: parts.next().unwrap_or("0").parse()?,
        writer: parts.next().unwrap_or("0").parse()?,
    })
}

// A record of the run, noted in this memory.
pub(crate) fn record(run: &str, memory: &mut [RawEvent]) -> Result<OpenRecord, Fail> {
    let mut record = OpenRecord::open();
    for word in run.split_whitespace() {
        let event = event(word)?;
        record.note(memory, event.thread, event.kind, event.mode, event.location)?;
    }
    for (i, word) in (1..513).zip(run.split_whitespace()) {
        let writer = event(word)?.writer;
        if writer != 0 {
            record.link(memory, i, usize::from(writer))?;
        }
    }
    Ok(record)
}
