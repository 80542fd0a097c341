//! Judges the runs of many logs, each a line of hexadecimal digits on standard input. Prints for each a line `log` with its
//! number, and then what `bunkmallard` prints for it; but of a violation only the kind, since it is open which one is shown.
#![tactic(auto)]

use events::limits::MAX_EVENTS;
use executions::execution::Execution;
use judge::by_number::judge;
use models::name::ModelName;
use runlog::fault::LogFault;
use runlog::log::Log;
use runtext::run::{LONGEST_RUN, write_refusal};
use std::io::{BufRead, BufReader, ErrorKind, Print};
use std::{io, str};
use verdicts::step::{Sort, Step};
use verdicttext::line::{LONGEST_LINE, write_line};

// What stands in a step buffer before anything is judged.
const NO_STEP: Step = Step {
    from: 0,
    to: 0,
    sort: Sort::Po,
};

// The line up to the kind of the violation: three words. A line without a violation is left whole.
fn to_the_kind(line: &str) -> &str {
    let mut spaces = line.match_indices(' ');
    match (line.contains(" inconsistent "), spaces.nth(2)) {
        (true, Some((end, _))) => line.get(..end).unwrap_or(line),
        _ => line,
    }
}

// Judges a run under each model, and prints a line for each.
fn print_verdicts<E: Execution>(rt: &impl Print, run: &E) -> io::Result<()> {
    for model in (1..6).filter_map(ModelName::numbered) {
        let mut order = [0; MAX_EVENTS];
        let mut steps = [NO_STEP; MAX_EVENTS];
        let answer = judge(model.number(), run, &mut order, &mut steps);
        let mut text = [0; LONGEST_LINE];
        let written = write_line(model, run, answer, &order, &steps, &mut text);
        let count = written.map_err(|_| ErrorKind::InvalidData)?;
        let line = str::from_utf8(&text[..count]).map_err(|_| ErrorKind::InvalidData)?;
        println!(rt; "{}", to_the_kind(line))?;
    }
    Ok(())
}

fn print_refusal(rt: &impl Print, fault: LogFault) -> io::Result<()> {
    let mut text = [0; LONGEST_RUN];
    let count = write_refusal(fault, &mut text).map_err(|_| ErrorKind::InvalidData)?;
    let line = str::from_utf8(&text[..count]).map_err(|_| ErrorKind::InvalidData)?;
    print!(rt; "{line}")
}

fn main(rt: HostRuntime) -> io::Result<()> {
    let lines = BufReader::new(rt.alloc(), rt.stdin())?.lines(rt.alloc());
    for (k, line) in lines.enumerate() {
        println!(rt; "log {}", k + 1)?;
        let bytes = hex::decode(rt.alloc(), line?.as_str()).map_err(|_| ErrorKind::InvalidData)?;
        match Log::try_from(bytes.as_slice()) {
            Ok(run) => print_verdicts(&rt, &run)?,
            Err(fault) => print_refusal(&rt, fault)?,
        }
    }
    Ok(())
}
