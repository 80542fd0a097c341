// The same of runs that are read from the bytes of a log.
use crate::known::{BACKS, CYCLES, MODELS, ORDERS, ROUNDS, RULES, TWINS, WHOLES};
use crate::rows::check_rows;
use crate::words::event;
use runlog::log::Log;
use runlog::opening::open_log;
use std::alloc::Global;
use std::process::Abort;
use std::test::Fail;

// The bytes of the log of a run.
fn bytes(heap: Global, run: &str) -> Result<Vec<u8>, Fail> {
    let mut bytes = Vec::new(heap);
    for word in run.split_whitespace() {
        let event = event(word)?;
        let [low, high] = event.writer.to_le_bytes();
        bytes.extend_from_slice(&[8, 0, 1, 0, event.thread, event.kind, event.mode])?;
        bytes.extend_from_slice(&[event.location, low, high])?;
    }
    let count = u16::try_from(run.split_whitespace().count())?;
    let [low, high] = count.to_le_bytes();
    bytes.extend_from_slice(&[4, 0, 2, 0, low, high])?;
    Ok(bytes)
}

fn check_groups(rt: &impl Abort, heap: Global, groups: &str) -> Result<(), Fail> {
    for group in groups.trim().split("\n\n") {
        let (name, rows) = group.split_once('\n').ok_or("a run has rows below it")?;
        let (_, run) = name.split_once(':').unwrap_or(("", name));
        let bytes = bytes(heap, run)?;
        let mut log = Log::empty();
        assert!(rt; open_log(bytes.as_slice(), &mut log).is_ok(), "{run}");
        check_rows(rt, heap, &log, rows, name)?;
    }
    Ok(())
}

#[test]
fn judged(rt: HostRuntime) -> Result<(), Fail> {
    for groups in [MODELS, CYCLES, TWINS, BACKS] {
        check_groups(&rt, rt.alloc(), groups)?;
    }
    Ok(())
}

#[test]
fn judged_too(rt: HostRuntime) -> Result<(), Fail> {
    for groups in [ROUNDS, WHOLES, ORDERS, RULES] {
        check_groups(&rt, rt.alloc(), groups)?;
    }
    Ok(())
}
