//! Prints the run whose log comes on standard input, a line an event, or why the log is refused.
#![tactic(auto)]

use input::fill;
use runtext::run::{LONGEST_RUN, write_log};
use std::io;
use std::io::Write;

// The log of the longest run has 5,126 bytes, so what follows the first 8,192 is not read. The text always suffices.
fn main(rt: HostRuntime) -> io::Result<()> {
    let mut log = [0u8; 8192];
    let n = fill(&mut rt.stdin(), &mut log)?;
    let mut text = [0; LONGEST_RUN];
    let count = write_log(&log[..n], &mut text).ok().unwrap();
    rt.stdout().write_all(&text[..count])
}
