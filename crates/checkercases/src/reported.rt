// What is printed of a log, in texts of many lengths: the lines where they fit, and nothing where they do not.
use crate::words::bytes;
use report::report::{LONGEST_REPORT, report};
use std::process::Abort;
use std::test::Fail;

// A log of nine events and its lines.
const RUN: &str =
    "1.W.rlx.1 1.W.rlx.1 1.F.rel 1.W.rlx.2 2.R.rlx.2.4 2.W.rlx.3 3.R.rlx.3.6 3.F.acq 3.R.rlx.1.1";

const LINES: &[u8] = b"RC20 consistent 1:1<2 2:4 3:6
RA inconsistent ROUND 1:1>2,2>1
SRA inconsistent WHOLE 1 2
WRA inconsistent WEAK 1 2 9
RELAXED consistent 1:1<2 2:4 3:6
";

// Where the text fits it stands at the front, and every other place is as it was; where it does not, all is as it was.
fn check_text(rt: &impl Abort, log: &[u8], places: usize, expected: &[u8]) {
    let mut memory = [7; 400];
    let (text, behind) = memory.split_at_mut(places.min(400));
    match report(log, text) {
        Ok(count) => {
            assert!(rt; count == expected.len() && text.starts_with(expected));
            assert!(rt; text.iter().skip(count).all(|byte| *byte == 7));
        }
        Err(_) => {
            assert!(rt; places < expected.len() && text.iter().all(|byte| *byte == 7));
        }
    }
    assert!(rt; behind.iter().all(|byte| *byte == 7));
}

#[test]
fn each_length(rt: HostRuntime) -> Result<(), Fail> {
    let log = bytes(rt.alloc(), RUN)?;
    let length = LINES.len();
    for places in [
        0,
        1,
        30,
        length.saturating_sub(1),
        length,
        length.saturating_add(1),
        400,
    ] {
        check_text(&rt, log.as_slice(), places, LINES);
    }
    let cut_short = log.as_slice().get(..95).ok_or("the log is longer")?;
    for places in [0, 17, 18, 19, 400] {
        check_text(&rt, cut_short, places, b"log refused 10 90\n");
    }
    check_text(&rt, &[], 400, b"log refused 10 0\n");
    Ok(())
}

#[test]
fn the_longest_text(rt: HostRuntime) {
    assert_eq!(rt; LONGEST_REPORT, 20805);
}
