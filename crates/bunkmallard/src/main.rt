//! Reads the log of a run on standard input, and prints for each model whether some order of the run's stores satisfies it: that
//! order, or the violation that rules every order out; or why the model is not asked of such a run. A log that is refused gives
//! one line.
#![tactic(auto)]

use input::fill;
use report::report::{LONGEST_REPORT, report};
use std::io;
use std::io::Write;

// The log of the longest run has 5,126 bytes, so what follows the first 8,192 is not read. The text always suffices.
fn main(rt: HostRuntime) -> io::Result<()> {
    let mut log = [0u8; 8192];
    let n = fill(&mut rt.stdin(), &mut log)?;
    let mut text = [0; LONGEST_REPORT];
    let count = report(&log[..n], &mut text).ok().unwrap();
    rt.stdout().write_all(&text[..count])
}
