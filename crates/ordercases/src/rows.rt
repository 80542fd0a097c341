// Checking one run, with orders of its stores.
use crate::answers::{by_number, with_each_rule};
use crate::words::{BLANK, answers, order, pairs, record};
use executions::execution::Execution;
use models::rc20::Rc20Rule;
use models::rule::Rule;
use models::rules::{EmptyRule, ReadsFromRule};
use recorder::sealed::SealedRecord;
use std::alloc::Global;
use std::process::Abort;
use std::test::Fail;

// Asks each rule of each two events, and of the numbers at both ends that are none. These pairs and no others are in RC20's rule.
fn check_rules(rt: &impl Abort, run: &SealedRecord, expected: &[(usize, usize)], head: &str) {
    for a in 0..run.count() + 2 {
        for b in 0..run.count() + 2 {
            let asked = (
                Rc20Rule.syncs(run, a, b),
                ReadsFromRule.syncs(run, a, b),
                EmptyRule.syncs(run, a, b),
            );
            let reads = run.event(b).is_ok_and(|event| event
                .reads_from()
                .is_some_and(|w| usize::from(w) == a));
            assert_eq!(rt;
                asked,
                (expected.contains(&(a, b)), reads, false),
                "{head}: {a} {b}"
            );
        }
    }
}

// A group is a run, which may have a name, with the pairs of RC20's rule; and below it orders. Behind each of these stands what it
// answers with RC20's rule, with reads-from and with no rule, each at location, whole and weak scope.
pub(crate) fn check_group(rt: &impl Abort, heap: Global, group: &str) -> Result<(), Fail> {
    let (head, rows) = group.split_once('\n').unwrap_or((group, ""));
    let (_, head) = head.split_once(':').unwrap_or(("", head));
    let (run, expected) = head.split_once('|').unwrap_or((head, ""));
    let mut memory = [BLANK; 512];
    let record = record(run, &mut memory)?;
    let mut sealed = SealedRecord::empty();
    assert!(rt; record.seal(&memory, &mut sealed).is_ok(), "{run}");
    let expected = pairs(heap, expected)?;
    check_rules(rt, &sealed, expected.as_slice(), head);
    for row in rows.lines() {
        let (listed, expected) = row.split_once('|').unwrap_or((row, ""));
        let order = order(heap, listed)?;
        let expected = answers(expected)?;
        assert!(rt;
            with_each_rule(&sealed, order.as_slice()) == expected,
            "{run}: {row}"
        );
        let [rc20, reads_from, empty] = expected;
        let named = [
            rc20[0],
            reads_from[0],
            reads_from[1],
            reads_from[2],
            empty[0],
        ];
        assert!(rt;
            by_number(&sealed, order.as_slice()) == named,
            "{run}: {row}"
        );
    }
    Ok(())
}

// Groups stand apart by blank lines.
pub(crate) fn check_groups(rt: &impl Abort, heap: Global, groups: &str) -> Result<(), Fail> {
    for group in groups.trim().split("\n\n") {
        check_group(rt, heap, group)?;
    }
    Ok(())
}
