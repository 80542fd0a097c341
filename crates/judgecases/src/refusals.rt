// Buffers that are too short, and such as are longer than need be; and updates where whole scope has no place for them.
use crate::judging::{Case, check_with};
use crate::words::{BLANK, record};
use events::refusal::{Layer, Refusal};
use executions::execution::Execution;
use executions::fault::CheckerFault;
use models::model::{AtLocation, AtWeak, AtWhole};
use models::rc20::Rc20Rule;
use models::rule::Rule;
use models::rules::{EmptyRule, ReadsFromRule};
use recorder::sealed::SealedRecord;
use std::alloc::Global;
use std::process::Abort;
use std::test::Fail;

const FAULTS: [(CheckerFault, u8, usize); 3] = [
    (CheckerFault::ShortBuffer, 9, 0),
    (CheckerFault::HasUpdates(1), 24, 1),
    (CheckerFault::HasUpdates(512), 24, 512),
];

#[test]
fn each_fault(rt: HostRuntime) -> Result<(), Fail> {
    for (fault, number, place) in FAULTS {
        let told = (fault.number(), fault.place(), fault.layer());
        assert!(rt; told == (number, place, Layer::Checker));
        let text = format!(in rt.alloc(); "refused {number} {place}")?;
        assert_eq!(rt; fault.to_string(rt.alloc())?, text);
    }
    Ok(())
}

// What is expected at location, whole and weak scope.
type Expected = [&'static str; 3];

// By one rule, at location, whole and weak scope.
fn check_scopes<R: Rule, E: Execution>(
    rt: &impl Abort,
    heap: Global,
    rule: &R,
    run: &E,
    lengths: (u16, u16),
    expected: Expected,
) -> Result<(), Fail> {
    let [location, whole, weak] = expected;
    let case = Case::of(heap, run, location, "at location scope");
    check_with::<AtLocation<R>, E>(rt, &case, rule, lengths)?;
    let case = Case::of(heap, run, whole, "at whole scope");
    check_with::<AtWhole<R>, E>(rt, &case, rule, lengths)?;
    let case = Case::of(heap, run, weak, "at weak scope");
    check_with::<AtWeak<R>, E>(rt, &case, rule, lengths)
}

// By every rule, at location, whole and weak scope.
fn check_lengths(
    rt: &impl Abort,
    heap: Global,
    words: &str,
    lengths: (u16, u16),
    expected: Expected,
) -> Result<(), Fail> {
    let mut memory = [BLANK; 512];
    let record = record(words, &mut memory)?;
    let mut sealed = SealedRecord::empty();
    assert!(rt; record.seal(&memory, &mut sealed).is_ok(), "{words}");
    check_scopes(rt, heap, &Rc20Rule, &sealed, lengths, expected)?;
    check_scopes(rt, heap, &ReadsFromRule, &sealed, lengths, expected)?;
    check_scopes(rt, heap, &EmptyRule, &sealed, lengths, expected)
}

// Runs, and what is expected of each at location, whole and weak scope by every rule, if the buffers are long enough: one
// that is consistent, and one with each kind of violation.
const RUNS: [(&str, Expected); 7] = [
    ("", ["order", "order", "order"]),
    (
        "2.W.rlx.9 1.W.rlx.1 1.W.rlx.9 2.R.rlx.1.2",
        ["order 2 1 3", "order 2 1 3", "order"],
    ),
    (
        "1.R.rlx.1.4 1.W.rlx.2 2.R.rlx.2.2 2.W.rlx.1",
        ["causal 4", "causal 4", "causal 4"],
    ),
    (
        "1.W.rlx.1 2.U.rlx.1.1 3.U.rlx.1.1",
        ["twin 2 3", "refused 24 2", "twin 2 3"],
    ),
    (
        "1.W.rlx.1 1.U.rlx.1.1 1.R.rlx.1.1",
        ["back 2 1", "refused 24 2", "weak 1 2 3"],
    ),
    (
        "1.W.rlx.1 1.W.rlx.1 1.R.rlx.1.1",
        ["round 1 2", "whole 2", "weak 1 2 3"],
    ),
    (
        "1.U.rlx.1.2 2.U.rlx.1.1",
        ["causal 2", "refused 24 1", "causal 2"],
    ),
];

// Too short comes before all else, be it the one buffer or the other.
#[test]
fn short_buffers(rt: HostRuntime) -> Result<(), Fail> {
    for (words, _) in RUNS {
        for lengths in [(511, 512), (512, 511), (511, 511)] {
            check_lengths(&rt, rt.alloc(), words, lengths, ["refused 9 0"; 3])?;
        }
    }
    Ok(())
}

#[test]
fn shorter_buffers(rt: HostRuntime) -> Result<(), Fail> {
    for (words, _) in RUNS {
        for lengths in [(0, 0), (0, 512), (512, 0), (600, 511), (511, 600), (8, 8)] {
            check_lengths(&rt, rt.alloc(), words, lengths, ["refused 9 0"; 3])?;
        }
    }
    Ok(())
}

#[test]
fn long_buffers(rt: HostRuntime) -> Result<(), Fail> {
    for (words, expected) in RUNS {
        for lengths in [(512, 512), (513, 512), (512, 513), (700, 600)] {
            check_lengths(&rt, rt.alloc(), words, lengths, expected)?;
        }
    }
    Ok(())
}

// The lowest update is named, whatever is wrong with the run besides.
const UPDATES: [(&str, &str); 5] = [
    ("1.W.rlx.1 2.U.rlx.1.1", "refused 24 2"),
    ("1.U.rlx.1.2 2.W.rlx.1", "refused 24 1"),
    (
        "1.W.rlx.1 1.F.rel 2.R.acq.1.1 2.W.rel.1 3.U.acqrel.1.1 3.U.rlx.1.5",
        "refused 24 5",
    ),
    (
        "1.R.rlx.1.2 1.W.rlx.1 2.W.rlx.2 3.U.rlx.2.5 3.U.rlx.2.3",
        "refused 24 4",
    ),
    (
        "1.W.rlx.1 1.W.rlx.1 1.R.rlx.1.1 2.U.rlx.1.2 2.U.rlx.1.2",
        "refused 24 4",
    ),
];

#[test]
fn updates_at_whole_scope(rt: HostRuntime) -> Result<(), Fail> {
    for (words, expected) in UPDATES {
        let mut memory = [BLANK; 512];
        let record = record(words, &mut memory)?;
        let mut sealed = SealedRecord::empty();
        assert!(rt; record.seal(&memory, &mut sealed).is_ok(), "{words}");
        let case = Case::of(rt.alloc(), &sealed, expected, words);
        for lengths in [(512, 512), (520, 530)] {
            check_with::<AtWhole<Rc20Rule>, SealedRecord>(&rt, &case, &Rc20Rule, lengths)?;
            check_with::<AtWhole<ReadsFromRule>, SealedRecord>(
                &rt,
                &case,
                &ReadsFromRule,
                lengths,
            )?;
            check_with::<AtWhole<EmptyRule>, SealedRecord>(&rt, &case, &EmptyRule, lengths)?;
        }
    }
    Ok(())
}
