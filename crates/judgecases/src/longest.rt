// Runs as long as they may be, read from logs.
use crate::judging::{Case, check_with};
use events::raw::RawEvent;
use models::model::{AtLocation, AtWeak, AtWhole, Model};
use models::rc20::Rc20Rule;
use models::rules::{EmptyRule, ReadsFromRule};
use runlog::log::Log;
use runlog::opening::open_log;
use std::alloc::{AllocError, Global};
use std::process::Abort;
use std::test::Fail;

#[derive(Clone, Copy)]
enum Plan {
    // Each thread reads, one location after another, what the next thread wrote there, and then writes there. Few of the events
    // synchronise, since each question to RC20's rule that is no quick one takes its time where a test is tried and not built.
    Relay,
    // Updates of which each reads from the one before it, and the first from the last.
    Ring,
    // The second event and the last update what the first wrote.
    Twins,
    // The last event reads what the last but two wrote, and the last but one overwrote.
    Overwritten,
    // The same with an update between them.
    Updated,
}

const WRITE: u8 = 2;

const UPDATE: u8 = 3;

fn relayed(i: u16) -> RawEvent {
    let k = i.wrapping_sub(1);
    let thread = (k / 64 % 8) as u8 + 1;
    let location = 64 - (k % 64 / 2) as u8;
    let is_strong = location % 16 == 1;
    let (kind, strong, location, writer) = if k % 2 == 1 {
        (WRITE, 2, location, 0)
    } else if thread == 8 {
        (4, 3, 0, 0)
    } else {
        (1, 1, location, i.wrapping_add(65))
    };
    let mode = if is_strong { strong } else { 0 };
    RawEvent {
        thread,
        kind,
        mode,
        location,
        writer,
    }
}

fn at_last_location(kind: u8, writer: u16) -> RawEvent {
    RawEvent {
        thread: 1,
        kind,
        mode: 0,
        location: 64,
        writer,
    }
}

// A write among many.
fn filling(i: u16) -> RawEvent {
    RawEvent {
        thread: (i % 8) as u8 + 1,
        kind: WRITE,
        mode: 0,
        location: (i % 63) as u8 + 1,
        writer: 0,
    }
}

fn planned(plan: Plan, i: u16) -> RawEvent {
    match (plan, i) {
        (Plan::Relay, _) => relayed(i),
        (Plan::Ring, 1) => at_last_location(UPDATE, 512),
        (Plan::Ring, _) => at_last_location(UPDATE, i.wrapping_sub(1)),
        (Plan::Twins, 1) => at_last_location(WRITE, 0),
        (Plan::Twins, 2 | 512) => at_last_location(UPDATE, 1),
        (Plan::Overwritten, 510 | 511) => at_last_location(WRITE, 0),
        (Plan::Updated, 510) => at_last_location(WRITE, 0),
        (Plan::Updated, 511) => at_last_location(UPDATE, 510),
        (Plan::Overwritten | Plan::Updated, 512) => at_last_location(1, 510),
        _ => filling(i),
    }
}

fn bytes(heap: Global, plan: Plan) -> Result<Vec<u8>, AllocError> {
    let mut bytes = Vec::new(heap);
    for i in 1..513 {
        let event = planned(plan, i);
        let [low, high] = event.writer.to_le_bytes();
        bytes.extend_from_slice(&[8, 0, 1, 0, event.thread, event.kind, event.mode])?;
        bytes.extend_from_slice(&[event.location, low, high])?;
    }
    bytes.extend_from_slice(&[4, 0, 2, 0, 0, 2])?;
    Ok(bytes)
}

fn check<M: Model>(
    rt: &impl Abort,
    heap: Global,
    rule: &M::Synchronises,
    plan: Plan,
    expected: &str,
) -> Result<(), Fail> {
    let bytes = bytes(heap, plan)?;
    let mut log = Log::empty();
    assert!(rt; open_log(bytes.as_slice(), &mut log).is_ok());
    let case = Case::of(heap, &log, expected, "a long run");
    check_with::<M, Log>(rt, &case, rule, (512, 512))
}

// The stores of the relay, location by rising location: at each in the order of the threads, or against it.
fn relay_order(heap: Global, is_along: bool) -> Result<String, AllocError> {
    let mut text = String::from_str(heap, "order")?;
    for k in 0..32u16 {
        for t in 0..8u16 {
            let thread = if is_along { t } else { 7 - t };
            let store = thread * 64 + 64 - 2 * k;
            text.push_str(format!(in heap; " {store}")?.as_str())?;
        }
    }
    Ok(text)
}

#[test]
fn relay_at_location_scope(rt: HostRuntime) -> Result<(), Fail> {
    let order = relay_order(rt.alloc(), false)?;
    check::<AtLocation<Rc20Rule>>(&rt, rt.alloc(), &Rc20Rule, Plan::Relay, order.as_str())
}

#[test]
fn relay_at_whole_scope(rt: HostRuntime) -> Result<(), Fail> {
    let order = relay_order(rt.alloc(), false)?;
    check::<AtWhole<ReadsFromRule>>(&rt, rt.alloc(), &ReadsFromRule, Plan::Relay, order.as_str())
}

#[test]
fn relay_at_whole_scope_without_rule(rt: HostRuntime) -> Result<(), Fail> {
    let order = relay_order(rt.alloc(), true)?;
    check::<AtWhole<EmptyRule>>(&rt, rt.alloc(), &EmptyRule, Plan::Relay, order.as_str())
}

#[test]
fn relay_at_weak_scope(rt: HostRuntime) -> Result<(), Fail> {
    check::<AtWeak<ReadsFromRule>>(&rt, rt.alloc(), &ReadsFromRule, Plan::Relay, "order")
}

#[test]
fn ring(rt: HostRuntime) -> Result<(), Fail> {
    check::<AtLocation<EmptyRule>>(&rt, rt.alloc(), &EmptyRule, Plan::Ring, "causal *")?;
    check::<AtWeak<Rc20Rule>>(&rt, rt.alloc(), &Rc20Rule, Plan::Ring, "causal *")?;
    check::<AtWhole<EmptyRule>>(&rt, rt.alloc(), &EmptyRule, Plan::Ring, "refused 24 1")
}

#[test]
fn twins(rt: HostRuntime) -> Result<(), Fail> {
    check::<AtLocation<EmptyRule>>(&rt, rt.alloc(), &EmptyRule, Plan::Twins, "twin 2 512")
}

#[test]
fn the_last_overwritten(rt: HostRuntime) -> Result<(), Fail> {
    let plan = Plan::Overwritten;
    check::<AtLocation<EmptyRule>>(&rt, rt.alloc(), &EmptyRule, plan, "round 64 2")
}

#[test]
fn the_last_overwritten_at_whole_scope(rt: HostRuntime) -> Result<(), Fail> {
    check::<AtWhole<EmptyRule>>(&rt, rt.alloc(), &EmptyRule, Plan::Overwritten, "whole 2")
}

#[test]
fn the_last_overwritten_at_weak_scope(rt: HostRuntime) -> Result<(), Fail> {
    let plan = Plan::Overwritten;
    check::<AtWeak<EmptyRule>>(&rt, rt.alloc(), &EmptyRule, plan, "weak 510 511 512")
}

#[test]
fn the_last_updated(rt: HostRuntime) -> Result<(), Fail> {
    check::<AtLocation<EmptyRule>>(&rt, rt.alloc(), &EmptyRule, Plan::Updated, "back 511 510")?;
    check::<AtWhole<EmptyRule>>(&rt, rt.alloc(), &EmptyRule, Plan::Updated, "refused 24 511")
}
