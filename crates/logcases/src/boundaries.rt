// Logs that are cut, logs as long as they may be, and every mode at every kind.
use crate::bytes::{READ_OF_511, writes};
use crate::outcome::{Opened, opened};
use runlog::sample::two_plus_two_writes;
use std::alloc::{AllocError, Global};
use std::test::Fail;

#[test]
fn cut_at_every_byte(rt: HostRuntime) {
    let log = two_plus_two_writes();
    for k in 0..66 {
        assert_eq!(rt; opened(&log[..k]), Err((10, k / 10 * 10)));
    }
    assert_eq!(rt; opened(&log), Ok(6));
}

#[test]
fn a_byte_too_many(rt: HostRuntime) -> Result<(), Fail> {
    let mut log = two_plus_two_writes().to_vec(rt.alloc())?;
    log.push(0)?;
    assert_eq!(rt; opened(log.as_slice()), Err((10, 66)));
    Ok(())
}

// A number of writes, the bytes that follow them, and what opening all that answers.
type Row = (usize, &'static [u8], Opened);

// 512 events, of which the last is a write, a read of the one before it, and an update of itself.
const LONGEST: [Row; 3] = [
    (512, b"\x04\x00\x02\x00\x00\x02", Ok(512)),
    (511, READ_OF_511, Ok(512)),
    (
        511,
        b"\x08\x00\x01\x00\x01\x03\x00\x01\x00\x02\x04\x00\x02\x00\x00\x02",
        Err((11, 5110)),
    ),
];

// A 513th event that is as the others, of thread 9, and cut short; and a 512th of thread 9.
const TOO_LONG: [Row; 4] = [
    (513, b"\x04\x00\x02\x00\x01\x02", Err((20, 5120))),
    (
        512,
        b"\x08\x00\x01\x00\x09\x02\x00\x01\x00\x00",
        Err((20, 5120)),
    ),
    (
        512,
        b"\x08\x00\x01\x00\x01\x02\x00\x01\x00",
        Err((10, 5120)),
    ),
    (
        511,
        b"\x08\x00\x01\x00\x09\x02\x00\x01\x00\x00",
        Err((11, 5110)),
    ),
];

// What opening answers of n writes and the bytes of `tail`.
fn after_writes(heap: Global, n: usize, tail: &[u8]) -> Result<Opened, AllocError> {
    let log = writes(heap, n, tail)?;
    Ok(opened(log.as_slice()))
}

#[test]
fn as_long_as_may_be(rt: HostRuntime) -> Result<(), Fail> {
    for (n, tail, expected) in LONGEST {
        assert_eq!(rt; after_writes(rt.alloc(), n, tail)?, expected);
    }
    Ok(())
}

#[test]
fn one_event_too_many(rt: HostRuntime) -> Result<(), Fail> {
    for (n, tail, expected) in TOO_LONG {
        assert_eq!(rt; after_writes(rt.alloc(), n, tail)?, expected);
    }
    Ok(())
}

// A write at location 1, and then an event of this kind and mode, which reads from it if it is a load.
fn second(kind: u8, mode: u8) -> Opened {
    let location = if kind == 4 { 0 } else { 1 };
    let writer = if kind == 1 || kind == 3 { 1 } else { 0 };
    let mut log = *b"\
        \x08\x00\x01\x00\x01\x02\x00\x01\x00\x00\
        \x08\x00\x01\x00\x02\x00\x00\x00\x00\x00\
        \x04\x00\x02\x00\x02\x00";
    log[15..19].copy_from_slice(&[kind, mode, location, writer]);
    opened(&log)
}

// The modes from 0 to 4 that each kind from 0 to 5 may have.
const ALLOWED: [[bool; 5]; 6] = [
    [false, false, false, false, false],
    [true, true, false, false, false],
    [true, false, true, false, false],
    [true, true, true, true, false],
    [true, true, true, true, false],
    [false, false, false, false, false],
];

#[test]
fn every_mode_at_every_kind(rt: HostRuntime) {
    for (kind, modes) in (0..6u8).zip(&ALLOWED) {
        for (mode, allowed) in (0..5u8).zip(modes) {
            let expected = if *allowed { Ok(2) } else { Err((11, 10)) };
            assert_eq!(rt; second(kind, mode), expected);
        }
    }
}
