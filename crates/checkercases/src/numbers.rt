// Judging and confirming under a model by its number: the same as by its name, and refused where no model has the number.
use crate::answers::Answer;
use crate::buffers::Buffers;
use crate::words::{bytes, opened};
use confirm::by_model::confirm_under;
use confirm::by_number::confirm;
use confirm::finding::Finding;
use events::refusal::Refusal;
use executions::execution::Execution;
use executions::fault::CheckerFault;
use judge::by_model::judge_under;
use judge::by_number::judge;
use models::model::{Ra, Rc20, Relaxed, Sra, Wra};
use models::rc20::Rc20Rule;
use models::rules::{EmptyRule, ReadsFromRule};
use runlog::log::Log;
use std::alloc::{AllocError, Global};
use std::process::Abort;
use std::test::Fail;

// A group is a run under its name, and below it slices to confirm. Behind each stands what is answered under the models from 1
// to 5: 0 where it passes, else the axiom that fails, and `x` where it is not an order, as none but the empty one is under the
// fourth.
const GROUPS: &str = "
no events:
| 00000
1 | xxxxx

an update in between: 1.W.rlx.1 2.U.rlx.1.1 3.W.rlx.1 3.R.rlx.1.2
3 1 2 | 000x0
1 3 2 | 444x4
1 2 3 | 333x3
1 2 | xxxxx
3 1 2 4 | xxxxx
| xxx0x

handing over: 1.W.rlx.1 1.W.rlx.1 1.W.rel.2 2.R.acq.2.3 2.R.rlx.1.1
1 2 3 | 333x0
2 1 3 | 222x2
3 1 2 | xxxxx
1 1 3 | xxxxx
| xxx3x

handing over relaxed: 1.W.rlx.1 1.W.rlx.1 1.W.rel.2 2.R.rlx.2.3 2.R.rlx.1.1
1 2 3 | 033x0
2 1 3 | 222x2
1 2 0 | xxxxx

two writes each way: 1.W.rel.1 1.W.rel.2 1.R.acq.2.4 2.W.rel.2 2.W.rel.1 2.R.acq.1.1
5 1 2 4 | 002x0
1 5 2 4 | 333x3
2 4 5 1 | xxxxx
| xxx0x

twins: 1.W.rlx.1 2.U.rlx.1.1 3.U.rlx.1.1
1 2 3 | 444x4
1 3 2 | 444x4
2 3 | xxxxx
| xxx4x

back: 1.W.rlx.1 2.U.rlx.1.1 2.R.rlx.1.1
1 2 | 333x3
2 1 | 222x2
65535 1 | xxxxx
| xxx3x

load buffering: 1.R.rlx.1.4 1.W.rlx.2 2.R.rlx.2.2 2.W.rlx.1
4 2 | 111x1
2 4 | xxxxx
| xxx1x

orders that differ: 1.R.rlx.1.4 1.W.rlx.2 2.W.rlx.2 3.W.rlx.1
4 2 3 | 000x0
4 3 2 | 000x0
| xxx0x

a ring: 1.U.rlx.1.2 2.U.rlx.1.1
1 2 | 111x1
2 1 | 111x1
| xxx1x
";

// The models, and numbers that no model has.
const NUMBERS: [u8; 8] = [1, 2, 3, 4, 5, 0, 6, 255];

// Lengths of the order buffer and of the step buffer. The first two are long enough.
const LENGTHS: [(u16, u16); 6] = [
    (512, 512),
    (700, 513),
    (511, 512),
    (512, 511),
    (0, 512),
    (0, 0),
];

// By the name of the model with this number.
fn judged<E: Execution>(number: u8, run: &E, buffers: &mut Buffers) -> Answer {
    let order = buffers.order.as_mut_slice();
    let steps = buffers.steps.as_mut_slice();
    match number {
        1 => judge_under::<Rc20, E>(&Rc20Rule, run, order, steps),
        2 => judge_under::<Ra, E>(&ReadsFromRule, run, order, steps),
        3 => judge_under::<Sra, E>(&ReadsFromRule, run, order, steps),
        4 => judge_under::<Wra, E>(&ReadsFromRule, run, order, steps),
        5 => judge_under::<Relaxed, E>(&EmptyRule, run, order, steps),
        _ => Err(CheckerFault::NoModel),
    }
}

fn confirmed<E: Execution>(number: u8, run: &E, order: &[u16]) -> Result<Finding, CheckerFault> {
    match number {
        1 => confirm_under::<Rc20, E>(&Rc20Rule, run, order),
        2 => confirm_under::<Ra, E>(&ReadsFromRule, run, order),
        3 => confirm_under::<Sra, E>(&ReadsFromRule, run, order),
        4 => confirm_under::<Wra, E>(&ReadsFromRule, run, order),
        5 => confirm_under::<Relaxed, E>(&EmptyRule, run, order),
        _ => Err(CheckerFault::NoModel),
    }
}

// By number and by name alike, in the answer and in every place of the buffers; and a refusal leaves them.
fn check_judging(rt: &impl Abort, heap: Global, run: &Log, name: &str) -> Result<(), AllocError> {
    for (stores, steps) in LENGTHS {
        let first = Buffers::of(heap, stores, steps)?;
        for number in NUMBERS {
            let mut numbered = Buffers::of(heap, stores, steps)?;
            let mut named = Buffers::of(heap, stores, steps)?;
            let order = numbered.order.as_mut_slice();
            let answer = judge(number, run, order, numbered.steps.as_mut_slice());
            let is_same = answer == judged(number, run, &mut named) && numbered.are_as(&named);
            let is_kept = answer.is_ok() || numbered.are_as(&first);
            assert!(rt; is_same && is_kept, "{name}: {number}");
        }
    }
    Ok(())
}

// What confirming answers as one character, and `-` where there is no such model.
fn character(answer: Result<Finding, CheckerFault>) -> char {
    match answer.map_err(|fault| (fault.number(), fault.place())) {
        Ok(finding) => char::from(b'0'.wrapping_add(finding.number())),
        Err((12, 0)) => 'x',
        Err((8, 0)) => '-',
        Err(_) => '?',
    }
}

// A row is a slice and what is answered.
fn check_confirming(rt: &impl Abort, heap: Global, run: &Log, row: &str) -> Result<(), Fail> {
    let (listed, expected) = row.split_once('|').ok_or("a slice has answers")?;
    let mut slice = Vec::new(heap);
    for store in listed.split_whitespace() {
        slice.push(store.parse::<u16>()?)?;
    }
    let mut answers = String::new(heap);
    for number in NUMBERS {
        let answer = confirm(number, run, slice.as_slice());
        answers.push(character(answer))?;
        assert!(rt; answer == confirmed(number, run, slice.as_slice()), "{row}");
    }
    let models = answers.as_str().strip_suffix("---");
    assert!(rt; models == Some(expected.trim()), "{row}: {answers}");
    Ok(())
}

#[test]
fn each_group(rt: HostRuntime) -> Result<(), Fail> {
    for group in GROUPS.trim().split("\n\n") {
        let (name, rows) = group.split_once('\n').ok_or("a run has slices below it")?;
        let (_, words) = name.split_once(':').ok_or("a run has a name")?;
        let bytes = bytes(rt.alloc(), words)?;
        let run = opened(bytes.as_slice())?;
        check_judging(&rt, rt.alloc(), &run, name)?;
        for row in rows.lines() {
            check_confirming(&rt, rt.alloc(), &run, row)?;
        }
    }
    Ok(())
}
