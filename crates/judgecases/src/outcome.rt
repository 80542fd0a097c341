// What judging answered, in words.
use crate::buffers::Buffers;
use events::refusal::Refusal;
use executions::fault::CheckerFault;
use std::alloc::{AllocError, Global};
use verdicts::verdict::Verdict;
use verdicts::violation::Violation;

pub(crate) type Answer = Result<Verdict, CheckerFault>;

// How many places at the head of the order buffer and of the step buffer the answer is about.
pub(crate) fn filled(answer: &Answer) -> (usize, usize) {
    match answer {
        Ok(Verdict::Consistent(stores)) => (*stores, 0),
        Ok(Verdict::Inconsistent(Violation::Causal(steps) | Violation::Whole(steps))) => {
            (0, *steps)
        }
        Ok(Verdict::Inconsistent(Violation::Round(_, steps))) => (0, *steps),
        Ok(Verdict::Inconsistent(Violation::Back)) => (0, 1),
        Ok(Verdict::Inconsistent(Violation::Twin(_, _) | Violation::Weak(_, _, _))) | Err(_) => {
            (0, 0)
        }
    }
}

fn order_text(heap: Global, stores: &[u16]) -> Result<String, AllocError> {
    let mut text = String::from_str(heap, "order")?;
    for store in stores {
        text.push_str(format!(in heap; " {store}")?.as_str())?;
    }
    Ok(text)
}

// A word, and then the order that was laid; or the numbers of the violation, and of a step back from where to where it
// leads; or those of a refusal.
pub(crate) fn told(heap: Global, answer: &Answer, buffers: &Buffers) -> Result<String, AllocError> {
    match answer {
        Ok(Verdict::Consistent(stores)) => order_text(heap, buffers.first_stores(*stores)),
        Ok(Verdict::Inconsistent(Violation::Causal(length))) => {
            format!(in heap; "causal {length}")
        }
        Ok(Verdict::Inconsistent(Violation::Twin(u, v))) => format!(in heap; "twin {u} {v}"),
        Ok(Verdict::Inconsistent(Violation::Weak(w, v, r))) => {
            format!(in heap; "weak {w} {v} {r}")
        }
        Ok(Verdict::Inconsistent(Violation::Back)) => match buffers.first_steps(1) {
            [step] => format!(in heap; "back {} {}", step.from, step.to),
            _ => String::from_str(heap, "back"),
        },
        Ok(Verdict::Inconsistent(Violation::Round(location, length))) => {
            format!(in heap; "round {location} {length}")
        }
        Ok(Verdict::Inconsistent(Violation::Whole(length))) => {
            format!(in heap; "whole {length}")
        }
        Err(fault) => format!(in heap; "refused {} {}", fault.number(), fault.place()),
    }
}

// Whether this is what a table expects, where `*` stands for a number that is free.
pub(crate) fn is_as_expected(told: &str, expected: &str) -> bool {
    let mut words = told.split_whitespace();
    for wanted in expected.split_whitespace() {
        match words.next() {
            Some(word) if word == wanted || wanted == "*" => {}
            _ => return false,
        }
    }
    words.next().is_none()
}
