//! What judging a run came to, as one line.
ghost use Rattle.std.specs.Prelude.{◌≡◌, ℕ, List, take};
ghost use Rattle.events.specs.Run.{FullRun};
ghost use Rattle.verdicts.specs.declared.step.Step.{Step as StepOf};
ghost use Rattle.verdicttext.specs.Groups.{groups, PartOrder};
ghost use Rattle.verdicttext.specs.Text.{line_text};
ghost use Rattle.verdicttext.specs.Turns.{LowestFirst};
ghost use Rattle.writing.specs.Writes.{Puts, Writes};

use crate::model::model_word;
use crate::order::put_order;
use crate::violation::put_violation;
use events::text::put_refused;
use executions::execution::Execution;
use executions::fault::CheckerFault;
use models::name::ModelName;
use verdicts::step::Step;
use verdicts::verdict::Verdict;
use writing::put::{Full, put};

// The first so many, or all if there are fewer.
fn first<T>(items: &[T], count: usize) -> &[T]
    ensures { result.now ≡ take count items.now }
{
    items.get(..count).unwrap_or(items)
}

/// What callers hand for a line: eight characters for each of 512 events, and 64 before them. That no line of a judge's answer is longer
/// is proved where `report` writes them.
pub const LONGEST_LINE: usize = 8 * 512 + 64;

// The line without its end.
fn put_line<E: Execution>(
    text: &mut [u8],
    at: usize,
    model: ModelName,
    run: &E,
    answer: Result<Verdict, CheckerFault>,
    order: &[u16],
    steps: &[Step],
) -> usize
    ensures { Puts (line_text model (E.Execution.events run.now) answer order.now steps.now) at text.old text.new result }
{
    let at = put(text, at, model_word(model));
    match answer {
        Ok(Verdict::Consistent(count)) => {
            let at = put(text, at, b" consistent");
            put_order(text, at, run, first(order, count))
        }
        Ok(Verdict::Inconsistent(violation)) => {
            let at = put(text, at, b" inconsistent ");
            put_violation(text, at, violation, first(steps, violation.step_count()))
        }
        Err(fault) => {
            let at = put(text, at, b" ");
            put_refused(text, at, &fault)
        }
    }
}

/// Writes the answer of judging a run under a model, over the two buffers as judging left them, at the front of this text, as a line
/// without its end, and answers how many characters that are. Every other place of the text is as it was. Where the line does not
/// fit it is refused, and all is as it was.
pub fn write_line<E: Execution>(
    model: ModelName,
    run: &E,
    answer: Result<Verdict, CheckerFault>,
    order: &[u16],
    steps: &[Step],
    text: &mut [u8],
) -> Result<usize, Full>
    ensures text { Writes (line_text model (E.Execution.events run.now) answer order.now steps.now) text.old text.new result }

    // What groups and where turns begin, by their laws.
    ensures groups { (o : List ℕ) → PartOrder (E.Execution.events run.now) o (groups (E.Execution.events run.now) o) }
    ensures turns { (ss : List StepOf) → LowestFirst ss }
{
    if put_line(&mut [], 0, model, run, answer, order, steps) > text.len() {
        return Err(Full);
    }
    Ok(put_line(text, 0, model, run, answer, order, steps))
}

#[cfg(test)]
mod tests {
    use super::*;
    use events::event::{Event, Kind, Mode};
    use std::process::Abort;
    use std::test::Fail;
    use verdicts::step::Sort;
    use verdicts::violation::Violation;

    // A run of three stores.
    #[derive(Drop)]
    struct Stores {
        events: [Event; 3],
        ghost full: { FullRun events },
    }

    impl Execution for Stores {
        ghost events = { λ s. s.events };

        fn count(&self) -> usize {
            self.events.len()
        }

        fn event(&self, i: usize) -> Result<Event, CheckerFault> {
            if !(1..=self.count()).contains(&i) {
                return Err(CheckerFault::NoEvent(i));
            }
            Ok(self.events[i - 1])
        }

        ghost full = { λ s. s.full };
    }

    // The second is of location 2, and the others are of location 1.
    fn three_stores() -> Stores {
        let first = Event {
            thread: 1,
            kind: Kind::Write,
            mode: Mode::Relaxed,
            location: 1,
            writer: 0,
        };
        let second = Event {
            location: 2,
            ..first
        };
        Stores {
            events: [first, second, first],
        }
    }

    fn steps(ends: [(u16, u16); 4]) -> [Step; 4] {
        ends.map(|(from, to)| Step {
            from,
            to,
            sort: Sort::Hb,
        })
    }

    // Over an order of the stores 3 1 2, and steps of which the third starts lowest, as the fourth does: where there is room for
    // so many characters.
    fn has_text(
        rt: &impl Abort,
        model: ModelName,
        answer: Result<Verdict, CheckerFault>,
        room: usize,
        expected: &[u8],
    ) -> Result<(), Fail> {
        let steps = steps([(7, 9), (9, 2), (2, 8), (2, 7)]);
        let run = three_stores();
        let mut text = [b'.'; 64];
        let room = room.min(64);
        let written = write_line(model, &run, answer, &[3, 1, 2], &steps, &mut text[..room]);
        if room < expected.len() {
            assert!(rt; written.is_err());
            assert_eq!(rt; &text, &[b'.'; 64]);
            return Ok(());
        }
        assert_eq!(rt; written.ok(), Some(expected.len()));
        let (front, rest) = text.split_at(expected.len().min(64));
        assert_eq!(rt; front, expected);
        assert!(rt; rest.iter().all(|character| *character == b'.'));
        Ok(())
    }

    // With room to spare, with just enough, and with one place too few.
    fn is_written(
        rt: &impl Abort,
        model: ModelName,
        answer: Result<Verdict, CheckerFault>,
        expected: &str,
    ) -> Result<(), Fail> {
        let expected = expected.as_bytes();
        for room in [64, expected.len(), expected.len().saturating_sub(1)] {
            has_text(rt, model, answer, room, expected)?;
        }
        Ok(())
    }

    #[test]
    fn orders(rt: HostRuntime) -> Result<(), Fail> {
        for (model, count, expected) in [
            (ModelName::Rc20, 0, "RC20 consistent"),
            (ModelName::Ra, 1, "RA consistent 1:3"),
            (ModelName::Sra, 2, "SRA consistent 1:3<1"),
            (ModelName::Wra, 3, "WRA consistent 1:3<1 2:2"),
            (ModelName::Relaxed, 9, "RELAXED consistent 1:3<1 2:2"),
        ] {
            is_written(&rt, model, Ok(Verdict::Consistent(count)), expected)?;
        }
        Ok(())
    }

    #[test]
    fn violations(rt: HostRuntime) -> Result<(), Fail> {
        for (violation, expected) in [
            (Violation::Causal(3), "RA inconsistent CAUSAL 2 7 9"),
            (Violation::Twin(3, 5), "RA inconsistent TWIN 3 5"),
            (Violation::Weak(4, 6, 5), "RA inconsistent WEAK 4 6 5"),
            (Violation::Back, "RA inconsistent BACK 7 9"),
            (Violation::Round(64, 2), "RA inconsistent ROUND 64:7>9,9>2"),
            (
                Violation::Round(1, 4),
                "RA inconsistent ROUND 1:2>8,2>7,7>9,9>2",
            ),
            (Violation::Whole(4), "RA inconsistent WHOLE 2 2 7 9"),
            (Violation::Whole(0), "RA inconsistent WHOLE"),
        ] {
            let answer = Ok(Verdict::Inconsistent(violation));
            is_written(&rt, ModelName::Ra, answer, expected)?;
        }
        Ok(())
    }

    #[test]
    fn refusals(rt: HostRuntime) -> Result<(), Fail> {
        for (model, fault, expected) in [
            (
                ModelName::Sra,
                CheckerFault::HasUpdates(2),
                "SRA refused 24 2",
            ),
            (ModelName::Ra, CheckerFault::ShortBuffer, "RA refused 9 0"),
        ] {
            is_written(&rt, model, Err(fault), expected)?;
        }
        Ok(())
    }
}
