//! A violation as text.
ghost use Rattle.std.specs.List.{flat_map, join_with_byte};
ghost use Rattle.verdicttext.specs.Text.{back_words, marked, space, violation_words};
ghost use Rattle.writing.specs.Writes.{Puts};

use crate::cycle::{put_starts, put_steps};
use crate::word::put_word;
use verdicts::step::Step;
use verdicts::violation::Violation;
use writing::put::put;

// Where a step leads from, and where to, each after a space; nothing where there is no step.
fn put_back(text: &mut [u8], at: usize, steps: &[Step]) -> usize
    ensures { Puts (flat_map (marked space) (back_words steps.now)) at text.old text.new result }
{
    match steps {
        [step, ..] => {
            let at = put_word(text, at, step.from);
            put_word(text, at, step.to)
        }
        [] => at,
    }
}

// The kind of the violation, and the events of these steps, which show it.
pub(crate) fn put_violation(
    text: &mut [u8],
    at: usize,
    violation: Violation,
    steps: &[Step],
) -> usize
    ensures { Puts (join_with_byte space (violation_words violation steps.now)) at text.old text.new result }
{
    match violation {
        Violation::Causal(_) => {
            let at = put(text, at, b"CAUSAL");
            put_starts(text, at, steps)
        }
        Violation::Twin(u, v) => {
            let at = put(text, at, b"TWIN");
            let at = put_word(text, at, u);
            put_word(text, at, v)
        }
        Violation::Weak(w, v, r) => {
            let at = put(text, at, b"WEAK");
            let at = put_word(text, at, w);
            let at = put_word(text, at, v);
            put_word(text, at, r)
        }
        Violation::Back => {
            let at = put(text, at, b"BACK");
            put_back(text, at, steps)
        }
        Violation::Round(location, _) => {
            let at = put(text, at, b"ROUND");
            let at = put_word(text, at, u16::from(location));
            let at = put(text, at, b":");
            put_steps(text, at, steps)
        }
        Violation::Whole(_) => {
            let at = put(text, at, b"WHOLE");
            put_starts(text, at, steps)
        }
    }
}
