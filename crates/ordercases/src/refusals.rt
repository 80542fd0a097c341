// What is refused: numbers that name no model, and lists that are no orders.
use crate::words::{BLANK, order, record};
use confirm::by_model::confirm_under;
use confirm::by_number::confirm;
use confirm::finding::Finding;
use events::refusal::{Layer, Refusal};
use executions::execution::Execution;
use executions::fault::CheckerFault;
use models::model::{AtLocation, AtWeak, AtWhole};
use models::rc20::Rc20Rule;
use models::rule::Rule;
use models::rules::{EmptyRule, ReadsFromRule};
use recorder::sealed::SealedRecord;
use std::process::Abort;
use std::test::Fail;

const NOT_AN_ORDER: Result<Finding, CheckerFault> = Err(CheckerFault::NotAnOrder);

const FAULTS: [(CheckerFault, u8); 2] = [
    (CheckerFault::NoModel, 8),
    (CheckerFault::NotAnOrder, 12),
];

#[test]
fn each_fault(rt: HostRuntime) -> Result<(), Fail> {
    for (fault, number) in FAULTS {
        let told = (fault.number(), fault.place(), fault.layer());
        assert!(rt; told == (number, 0, Layer::Checker));
        let text = format!(in rt.alloc(); "refused {number} 0")?;
        assert_eq!(rt; fault.to_string(rt.alloc())?, text);
    }
    Ok(())
}

// Whether the list is refused at location, whole and weak scope.
fn refused<R: Rule, E: Execution>(rule: &R, run: &E, list: &[u16]) -> [bool; 3] {
    [
        confirm_under::<AtLocation<R>, E>(rule, run, list) == NOT_AN_ORDER,
        confirm_under::<AtWhole<R>, E>(rule, run, list) == NOT_AN_ORDER,
        confirm_under::<AtWeak<R>, E>(rule, run, list) == NOT_AN_ORDER,
    ]
}

// At weak scope, which is that of the fourth model, only the empty list is an order. A number that names no model is refused first.
fn check_list<E: Execution>(rt: &impl Abort, run: &E, list: &[u16], is_order: bool, row: &str) {
    let expected = [!is_order, !is_order, !list.is_empty()];
    assert_eq!(rt; refused(&Rc20Rule, run, list), expected, "{row}");
    assert_eq!(rt; refused(&ReadsFromRule, run, list), expected, "{row}");
    assert_eq!(rt; refused(&EmptyRule, run, list), expected, "{row}");
    for model in 1..6 {
        let expected = if model == 4 {
            !list.is_empty()
        } else {
            !is_order
        };
        assert_eq!(rt;
            confirm(model, run, list) == NOT_AN_ORDER,
            expected,
            "{model}: {row}"
        );
    }
    for model in [0, 6, 7, 128, 255] {
        assert!(rt;
            confirm(model, run, list) == Err(CheckerFault::NoModel),
            "{model}: {row}"
        );
    }
}

// Runs, and below each of them lists: `yes` stands before those that are orders at location and whole scope.
const GROUPS: &str = "
1.W.rlx.1 1.F.rel 2.U.rlx.1.1 2.R.acq.2.5 3.W.rel.2
yes | 1 3 5
yes | 3 1 5
no  |
no  | 1
no  | 5
no  | 1 3
no  | 1 5
no  | 3 5
no  | 1 3 3
no  | 1 1 5
no  | 3 3 5
no  | 1 3 5 5
no  | 1 3 5 1
no  | 1 3 1 5
no  | 1 1 3 5
no  | 1 3 4
no  | 1 4 5
no  | 1 3 4 5
no  | 1 3 5 4
no  | 2 1 3 5
no  | 2 3 5
no  | 1 2 3 5
no  | 0 1 3 5
no  | 0 3 5
no  | 1 3 0
no  | 1 3 5 0
no  | 1 3 6
no  | 1 3 5 6
no  | 1 3 5 512
no  | 1 3 5 513
no  | 1 3 5 65535
no  | 65535
no  | 5 1 3
no  | 5 3 1
no  | 1 5 3
no  | 3 5 1

3.R.rlx.64.2 3.W.rlx.64 2.W.rlx.1 2.W.rlx.9 1.U.rlx.9.4 1.U.rlx.1.3
yes | 3 6 4 5 2
yes | 6 3 5 4 2
no  | 3 6 4 5
no  | 3 6 5 2
no  | 3 4 5 2
no  | 3 4 6 5 2
no  | 4 5 3 6 2
no  | 4 5 2 3 6
no  | 3 6 2 4 5
no  | 2 3 6 4 5
no  | 2 4 5 3 6
no  | 3 6 4 2 5
no  | 3 6 4 5 1
no  | 3 6 4 5 2 1
no  | 3 6 4 5 2 3
no  | 3 6 4 5 5 2

1.R.rlx.1.4 1.W.rlx.2 2.R.rlx.2.2 2.W.rlx.1
yes | 4 2
no  | 2 4
no  | 4
no  | 4 2 3

1.F.rel 2.F.acq
yes |
no  | 0
no  | 1
no  | 2 1
no  | 3
";

#[test]
fn each_list(rt: HostRuntime) -> Result<(), Fail> {
    for group in GROUPS.trim().split("\n\n") {
        let (run, rows) = group.split_once('\n').unwrap_or((group, ""));
        let mut memory = [BLANK; 512];
        let record = record(run, &mut memory)?;
        let mut sealed = SealedRecord::empty();
        assert!(rt; record.seal(&memory, &mut sealed).is_ok());
        for row in rows.lines() {
            let (is_order, listed) = row.split_once('|').unwrap_or((row, ""));
            let order = order(rt.alloc(), listed)?;
            check_list(
                &rt,
                &sealed,
                order.as_slice(),
                is_order.trim() == "yes",
                row,
            );
        }
    }
    Ok(())
}

// Lists longer than a run may be, which begin as orders do.
#[test]
fn long_lists(rt: HostRuntime) -> Result<(), Fail> {
    let mut memory = [BLANK; 512];
    let record = record("1.W.rlx.1 1.W.rlx.1", &mut memory)?;
    let mut sealed = SealedRecord::empty();
    assert!(rt; record.seal(&memory, &mut sealed).is_ok());
    for length in [512, 513, 514, 70000] {
        let mut order = vec![in rt.alloc(); 2u16; length]?;
        if let Some(first) = order.first_mut() {
            *first = 1;
        }
        check_list(&rt, &sealed, order.as_slice(), false, "a long list");
    }
    Ok(())
}
