// Checking one run by every rule at every scope.
use crate::judging::{Case, check_with};
use crate::words::{BLANK, record};
use executions::execution::Execution;
use models::model::{AtLocation, AtWeak, AtWhole};
use models::rc20::Rc20Rule;
use models::rule::Rule;
use models::rules::{EmptyRule, ReadsFromRule};
use recorder::sealed::SealedRecord;
use std::alloc::Global;
use std::process::Abort;
use std::test::Fail;

// At one scope by one rule.
fn check_at<R: Rule, E: Execution>(
    rt: &impl Abort,
    case: &Case<'_, E>,
    rule: &R,
    scope: &str,
) -> Result<(), Fail> {
    match scope {
        "location" => check_with::<AtLocation<R>, E>(rt, case, rule, (512, 512)),
        "whole" => check_with::<AtWhole<R>, E>(rt, case, rule, (512, 512)),
        "weak" => check_with::<AtWeak<R>, E>(rt, case, rule, (512, 512)),
        _ => Err(Fail::new("no such scope")),
    }
}

// A row is a scope, and what is expected there with the rule of RC20, with reads-from and with none; or once, if it is one
// for all.
fn check_row<'x, E: Execution>(
    rt: &impl Abort,
    heap: Global,
    run: &'x E,
    row: &'x str,
    name: &'x str,
) -> Result<(), Fail> {
    let mut cells = row.split('|').map(|cell| cell.trim());
    let scope = cells.next().unwrap_or("");
    let rc20 = cells.next().unwrap_or("");
    let reads_from = cells.next().unwrap_or(rc20);
    let empty = cells.next().unwrap_or(rc20);
    check_at(rt, &Case::of(heap, run, rc20, name), &Rc20Rule, scope)?;
    check_at(
        rt,
        &Case::of(heap, run, reads_from, name),
        &ReadsFromRule,
        scope,
    )?;
    check_at(rt, &Case::of(heap, run, empty, name), &EmptyRule, scope)
}

// Rows of one run.
pub(crate) fn check_rows<E: Execution>(
    rt: &impl Abort,
    heap: Global,
    run: &E,
    rows: &str,
    name: &str,
) -> Result<(), Fail> {
    for row in rows.lines() {
        check_row(rt, heap, run, row, name)?;
    }
    Ok(())
}

// A group is a run, which may have a name, and below it a row for each scope.
fn check_group(rt: &impl Abort, heap: Global, group: &str) -> Result<(), Fail> {
    let (name, rows) = group.split_once('\n').ok_or("a run has rows below it")?;
    let (_, run) = name.split_once(':').unwrap_or(("", name));
    let mut memory = [BLANK; 512];
    let record = record(run, &mut memory)?;
    let mut sealed = SealedRecord::empty();
    assert!(rt; record.seal(&memory, &mut sealed).is_ok(), "{run}");
    check_rows(rt, heap, &sealed, rows, name)
}

// Groups stand apart by blank lines.
pub(crate) fn check_groups(rt: &impl Abort, heap: Global, groups: &str) -> Result<(), Fail> {
    for group in groups.trim().split("\n\n") {
        check_group(rt, heap, group)?;
    }
    Ok(())
}
