// What checking answers under each model, and the line that is printed of it.
use crate::buffers::Buffers;
use checker::check::check;
use checker::checked::Checked;
use confirm::finding::Finding;
use executions::execution::Execution;
use executions::fault::CheckerFault;
use models::model::{Model, Ra, Rc20, Relaxed, Sra, Wra};
use models::name::ModelName;
use models::rc20::Rc20Rule;
use models::rules::{EmptyRule, ReadsFromRule};
use std::alloc::{AllocError, Global};
use verdicts::step::Step;
use verdicts::verdict::Verdict;
use verdicts::violation::Violation;
use verdicttext::line::{LONGEST_LINE, write_line};

pub(crate) const MODELS: [ModelName; 5] = [
    ModelName::Rc20,
    ModelName::Ra,
    ModelName::Sra,
    ModelName::Wra,
    ModelName::Relaxed,
];

pub(crate) type Answer = Result<Verdict, CheckerFault>;

// Checks the run under this model, with no calls on a record.
fn checked_under<M: Model, E: Execution>(
    rule: &M::Synchronises,
    run: &E,
    buffers: &mut Buffers,
    candidate: &[u16],
) -> Checked {
    let order = buffers.order.as_mut_slice();
    let steps = buffers.steps.as_mut_slice();
    check::<M, E>(
        &[],
        &mut [],
        &mut [],
        &mut [],
        rule,
        run,
        order,
        steps,
        candidate,
    )
}

// And under the model of this name.
pub(crate) fn checked<E: Execution>(
    model: ModelName,
    run: &E,
    buffers: &mut Buffers,
    candidate: &[u16],
) -> Checked {
    match model {
        ModelName::Rc20 => checked_under::<Rc20, E>(&Rc20Rule, run, buffers, candidate),
        ModelName::Ra => checked_under::<Ra, E>(&ReadsFromRule, run, buffers, candidate),
        ModelName::Sra => checked_under::<Sra, E>(&ReadsFromRule, run, buffers, candidate),
        ModelName::Wra => checked_under::<Wra, E>(&ReadsFromRule, run, buffers, candidate),
        ModelName::Relaxed => checked_under::<Relaxed, E>(&EmptyRule, run, buffers, candidate),
    }
}

// An answer as one letter: `k` for consistent, one for each kind of violation, and `u` for updates at whole scope.
fn letter(answer: Answer) -> &'static str {
    match answer {
        Ok(Verdict::Consistent(_)) => "k",
        Ok(Verdict::Inconsistent(violation)) => match violation {
            Violation::Causal(_) => "c",
            Violation::Twin(_, _) => "t",
            Violation::Weak(_, _, _) => "w",
            Violation::Back => "b",
            Violation::Round(_, _) => "r",
            Violation::Whole(_) => "h",
        },
        Err(CheckerFault::HasUpdates(_)) => "u",
        Err(_) => "?",
    }
}

// A letter, whether an order was confirmed, and the line that is printed.
#[derive(Drop)]
pub(crate) struct Report {
    pub(crate) letter: &'static str,
    pub(crate) is_confirmed: bool,
    pub(crate) line: String,
}

impl Report {
    pub(crate) fn is_consistent(&self) -> bool {
        self.letter == "k"
    }

    // The line without the word of the model.
    pub(crate) fn words(&self) -> &str {
        self.line.as_str().split_once(' ').unwrap_or(("", "")).1
    }

    // Whether both say the same: of a consistent run all but the word of the model, and of any other the kind of the violation.
    pub(crate) fn says_as(&self, other: &Report) -> bool {
        self.letter == other.letter && (!self.is_consistent() || self.words() == other.words())
    }
}

// The answer over these buffers as a line.
pub(crate) fn line<E: Execution>(
    heap: Global,
    model: ModelName,
    run: &E,
    answer: Answer,
    order: &[u16],
    steps: &[Step],
) -> Result<String, AllocError> {
    let mut text = [0; LONGEST_LINE];
    let count = write_line(model, run, answer, order, steps, &mut text).unwrap_or(0);
    String::from_utf8_lossy(heap, &text[..count.min(LONGEST_LINE)])
}

// The run checked under the model.
pub(crate) fn told<E: Execution>(
    heap: Global,
    model: ModelName,
    run: &E,
) -> Result<Report, AllocError> {
    let mut buffers = Buffers::of(heap, 512, 512)?;
    let checked = checked(model, run, &mut buffers, &[]);
    let answer = checked.verdict;
    let (order, steps) = (buffers.order.as_slice(), buffers.steps.as_slice());
    Ok(Report {
        letter: letter(answer),
        is_confirmed: checked.confirmed == Some(Ok(Finding::Passes)),
        line: line(heap, model, run, answer, order, steps)?,
    })
}

// The lines under all models, in the order of their numbers.
pub(crate) fn lines<E: Execution>(heap: Global, run: &E) -> Result<String, AllocError> {
    let mut text = String::new(heap);
    for model in MODELS {
        text.push_str(told(heap, model, run)?.line.as_str())?;
        text.push('\n')?;
    }
    Ok(text)
}
