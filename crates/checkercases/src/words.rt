// Runs, written as words, and the bytes of their logs.
use runlog::log::Log;
use std::alloc::Global;
use std::test::Fail;

const KINDS: [&str; 5] = ["", "R", "W", "U", "F"];

const MODES: [&str; 4] = ["rlx", "acq", "rel", "acqrel"];

// Where the word stands among these.
fn place(words: &[&str], word: &str) -> Result<u8, Fail> {
    for (i, known) in (0..u8::MAX).zip(words) {
        if *known == word {
            return Ok(i);
        }
    }
    Err(Fail::new("no such word"))
}

// `3.U.acqrel.1.2` is thread, kind, mode, location and writer. Only loads have the last, and a fence has no location either.
fn push_event(bytes: &mut Vec<u8>, word: &str) -> Result<(), Fail> {
    let mut parts = word.split('.');
    let thread = parts.next().unwrap_or("").parse()?;
    let kind = place(&KINDS, parts.next().unwrap_or(""))?;
    let mode = place(&MODES, parts.next().unwrap_or(""))?;
    let location = parts.next().unwrap_or("0").parse()?;
    let writer: u16 = parts.next().unwrap_or("0").parse()?;
    let [low, high] = writer.to_le_bytes();
    bytes.extend_from_slice(&[8, 0, 1, 0, thread, kind, mode, location, low, high])?;
    Ok(())
}

// The bytes of the log of a run.
pub(crate) fn bytes(heap: Global, run: &str) -> Result<Vec<u8>, Fail> {
    let mut bytes = Vec::new(heap);
    for word in run.split_whitespace() {
        push_event(&mut bytes, word)?;
    }
    let [low, high] = u16::try_from(run.split_whitespace().count())?.to_le_bytes();
    bytes.extend_from_slice(&[4, 0, 2, 0, low, high])?;
    Ok(bytes)
}

// The log of these bytes.
pub(crate) fn opened(bytes: &[u8]) -> Result<Log<'_>, Fail> {
    Log::try_from(bytes).map_err(|_| Fail::new("the log does not open"))
}
