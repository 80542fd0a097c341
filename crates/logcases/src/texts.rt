// The text of logs, character by character.
use crate::bytes::{READ_OF_511, from_hex, writes};
use runtext::run::{LONGEST_RUN, write_log};
use std::process::Abort;
use std::test::Fail;

const EVERY_KIND: &str = "
    0800 0100 08020040 0000
    0800 0100 01030340 0100
    0800 0100 02030140 0200
    0800 0100 03030240 0300
    0800 0100 04030040 0400
    0800 0100 05040000 0000
    0800 0100 05040100 0000
    0800 0100 05040200 0000
    0800 0100 05040300 0000
    0800 0100 06010040 0500
    0800 0100 06010140 0100
    0800 0100 0702020a 0000
    0400 0200 0c00";

const ITS_TEXT: &str = "T8 W rlx L64
T1 U acqrel L64 from 1
T2 U acq L64 from 2
T3 U rel L64 from 3
T4 U rlx L64 from 4
T5 F rlx
T5 F acq
T5 F rel
T5 F acqrel
T6 R rlx L64 from 5
T6 R acq L64 from 1
T7 W rel L10
12 events
";

// Where there is room for so many characters.
fn has_text_in(rt: &impl Abort, log: &[u8], room: usize, expected: &[u8]) -> Result<(), Fail> {
    let mut text = [b'.'; 256];
    let room = room.min(256);
    let written = write_log(log, &mut text[..room]);
    if room < expected.len() {
        assert!(rt; written.is_err());
        assert_eq!(rt; &text, &[b'.'; 256]);
        return Ok(());
    }
    assert_eq!(rt; written.ok(), Some(expected.len()));
    let (front, rest) = text.split_at(expected.len().min(256));
    assert_eq!(rt; front, expected);
    assert!(rt; rest.iter().all(|character| *character == b'.'));
    Ok(())
}

// With room to spare, with just enough, and with one place too few.
fn has_text(rt: &impl Abort, log: &[u8], expected: &str) -> Result<(), Fail> {
    let expected = expected.as_bytes();
    for room in [256, expected.len(), expected.len().saturating_sub(1)] {
        has_text_in(rt, log, room, expected)?;
    }
    Ok(())
}

#[test]
fn every_kind_and_mode(rt: HostRuntime) -> Result<(), Fail> {
    let log = from_hex(rt.alloc(), EVERY_KIND)?;
    has_text(&rt, log.as_slice(), ITS_TEXT)
}

#[test]
fn the_longest_run(rt: HostRuntime) -> Result<(), Fail> {
    let log = writes(rt.alloc(), 511, READ_OF_511)?;
    let mut text = [b'.'; LONGEST_RUN];
    let count = write_log(log.as_slice(), &mut text).unwrap_or(0);
    let text = &text[..count.min(LONGEST_RUN)];
    assert_eq!(rt;
        text.iter().filter(|character| **character == b'\n').count(),
        513
    );
    assert!(rt; text.ends_with(b"T1 W rlx L1\nT1 R rlx L1 from 511\n512 events\n"));
    Ok(())
}

#[test]
fn no_events_and_no_log(rt: HostRuntime) -> Result<(), Fail> {
    has_text(&rt, b"\x04\x00\x02\x00\x00\x00", "0 events\n")?;
    has_text(&rt, b"", "log refused 10 0\n")
}

// A number of writes, the bytes that follow them, and the text of all that.
const REFUSED: [(usize, &[u8], &str); 3] = [
    (3, b"", "log refused 10 30\n"),
    (
        2,
        b"\x08\x00\x01\x00\x09\x02\x00\x01\x00\x00",
        "log refused 11 20\n",
    ),
    (513, b"", "log refused 20 5120\n"),
];

#[test]
fn each_refusal(rt: HostRuntime) -> Result<(), Fail> {
    for (n, tail, expected) in REFUSED {
        let log = writes(rt.alloc(), n, tail)?;
        has_text(&rt, log.as_slice(), expected)?;
    }
    Ok(())
}
