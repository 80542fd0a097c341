// Places that hold what no call put there.
use crate::rows::outcome;
use std::test::Fail;

// What every call answers, which names the lowest event whose place is damaged, and the memory. First come fields out of
// their range, then writers where none may be, writers that do not fit, damaged writers that fit all the same and those that
// do not, and several of these at once.
const DAMAGED: &str = "
refused 25 1   | 0.2.0.1
refused 25 2   | 1.2.0.1   9.2.0.1
refused 25 1   | 1.0.0.1   1.2.0.1
refused 25 2   | 1.2.0.1   1.5.0.1 1.4.0.0
refused 25 1   | 1.1.2.1
refused 25 1   | 1.2.1.1
refused 25 1   | 1.3.4.1
refused 25 1   | 1.1.0.0
refused 25 1   | 1.2.0.65
refused 25 2   | 1.4.0.0   1.4.0.1
refused 25 2   | 1.2.0.1   1.2.0.1.1
refused 25 1   | 1.2.0.1.9
refused 25 2   | 1.2.0.1   1.4.0.0.1
refused 25 1   | 1.3.0.1.1
refused 25 2   | 1.1.0.1   1.1.0.1.1
refused 25 2   | 1.4.0.0   1.1.0.1.1
refused 25 2   | 1.2.0.1   1.1.0.2.1
refused 25 1   | 1.1.0.1.2 / 1.2.0.1
refused 25 1   | 1.1.0.1.512   1.2.0.1
refused 25 1   | 1.1.0.1.65535 1.2.0.1
refused 25 2   | 1.1.0.1.2 9.2.0.1
refused 25 2   | 1.1.0.1.2 1.2.3.1
refused 25 2   | 1.1.0.1.2 1.3.4.1
refused 25 2   | 1.1.0.1.2 1.2.0.1.1
refused 25 2   | 1.1.0.1.2 1.3.0.1.2
refused 25 1   | 1.1.0.1.2 1.5.0.1
refused 25 1   | 1.1.0.1.2 1.2.0.65
refused 25 2   | 1.2.0.1   0.2.0.1   0.2.0.1
refused 25 2   | 1.2.0.1   1.1.0.1.9 0.2.0.1
refused 25 2   | 1.2.0.1   1.1.0.65  1.1.0.1.3
refused 25 2   | 1.2.0.1   1.2.0.1.1 1.1.0.1.9 1.4.0.0
refused 25 3   | 1.2.0.1   1.1.0.1.4 1.2.0.1.1 0.2.0.1
refused 25 512 | 511x1.4.0.0 1.4.0.0.512
";

const CALLS: [&str; 4] = [
    "note 512 1 2 0 1",
    "link 512 1 2",
    "retract 512",
    "seal 512",
];

#[test]
fn each_call(rt: HostRuntime) -> Result<(), Fail> {
    for row in DAMAGED.trim().lines() {
        let (answer, places) = row.split_once('|').unwrap_or((row, ""));
        for call in CALLS {
            let said = outcome(rt.alloc(), places, call, places)?;
            assert_eq!(rt; said.as_str(), answer.trim(), "{call} on {places}");
        }
    }
    Ok(())
}
