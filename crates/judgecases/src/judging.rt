// Judging a run under one model, and looking at all that it answers.
use crate::buffers::Buffers;
use crate::evidence::Evidence;
use crate::facts::Facts;
use crate::outcome::{Answer, filled, is_as_expected, told};
use confirm::by_model::confirm_under;
use confirm::finding::Finding;
use executions::execution::Execution;
use judge::by_model::judge_under;
use models::model::Model;
use std::alloc::Global;
use std::process::Abort;
use std::test::Fail;
use verdicts::verdict::Verdict;

// A run, what a table expects of it, and the words by which the case is known where it fails.
#[derive(Drop)]
pub(crate) struct Case<'a, E: Execution> {
    heap: Global,
    run: &'a E,
    expected: &'a str,
    name: &'a str,
}

impl<'a, E: Execution> Case<'a, E> {
    pub(crate) fn of(heap: Global, run: &'a E, expected: &'a str, name: &'a str) -> Case<'a, E> {
        Case {
            heap,
            run,
            expected,
            name,
        }
    }
}

// Whether confirming passes the order that was laid, which is empty at weak scope; or the steps show the violation.
fn is_right<M: Model, E: Execution>(
    rule: &M::Synchronises,
    run: &E,
    answer: &Answer,
    buffers: &Buffers,
) -> bool {
    let (stores, steps) = filled(answer);
    match answer {
        Ok(Verdict::Consistent(_)) => {
            let order = buffers.first_stores(stores);
            confirm_under::<M, E>(rule, run, order) == Ok(Finding::Passes)
        }
        Ok(Verdict::Inconsistent(violation)) => {
            let evidence = Evidence {
                facts: Facts { rule, run },
                violation: *violation,
                steps: buffers.first_steps(steps),
            };
            evidence.shows()
        }
        Err(_) => true,
    }
}

// Judges the run with buffers of these lengths.
pub(crate) fn check_with<M: Model, E: Execution>(
    rt: &impl Abort,
    case: &Case<'_, E>,
    rule: &M::Synchronises,
    lengths: (u16, u16),
) -> Result<(), Fail> {
    let (name, expected) = (case.name, case.expected);
    let mut buffers = Buffers::of(case.heap, lengths)?;
    let answer = judge_under::<M, E>(
        rule,
        case.run,
        buffers.order.as_mut_slice(),
        buffers.steps.as_mut_slice(),
    );
    let told = told(case.heap, &answer, &buffers)?;
    let (stores, steps) = filled(&answer);
    assert!(rt;
        is_as_expected(told.as_str(), expected),
        "{name}: {told}, and not {expected}"
    );
    assert!(rt;
        buffers.keep_all_but(stores, steps),
        "{name}: {told}, a buffer is touched"
    );
    assert!(rt;
        is_right::<M, E>(rule, case.run, &answer, &buffers),
        "{name}: {told} is not right"
    );
    Ok(())
}
