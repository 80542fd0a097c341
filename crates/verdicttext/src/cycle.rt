//! A cycle of steps as text, from the step that starts lowest on and round.
ghost use Rattle.std.specs.Prelude.{◌≡◌, ◌≤◌, ◌++◌, false, length, map};
ghost use Rattle.std.specs.Iterator.Adapters.{chain_first, chain_second, chain_first_done, chain_second_done};
ghost use Rattle.std.specs.List.{join_with_byte, flat_map};
ghost use Rattle.std.specs.Slice.Iter.{iter_rest};
ghost use Rattle.verdicttext.specs.Text.{comma, cycle_words, marked, space, step_text};
ghost use Rattle.verdicttext.specs.Turns.{lowest_start, turned};
ghost use Rattle.writing.specs.Writes.{Puts};

use crate::word::put_word;
use std::iter::Chain;
use std::slice::Iter;
use verdicts::step::Step;
use writing::put::{put, put_number};

// Where the lowest start stands, at first.
fn lowest_start(steps: &[Step]) -> usize
    ensures place { result ≡ lowest_start steps.now }
    ensures within { result ≤ length steps.now }
{
    let mut lowest = 0;
    for i in 1..steps.len() {
        if steps[i].from < steps[lowest].from {
            lowest = i;
        }
    }
    lowest
}

// The steps from the lowest start on, round to the one before it.
fn turned<'a>(steps: &'a [Step]) -> Chain<Iter<'a, Step>, Iter<'a, Step>>
    ensures steps { iter_rest (chain_first result) ++ iter_rest (chain_second result) ≡ turned steps.now }
    ensures fresh { (chain_first_done result ≡ false) × (chain_second_done result ≡ false) }
{
    let lowest = lowest_start(steps);
    steps[lowest..].iter().chain(&steps[..lowest])
}

// Where the steps start, each after a space.
pub(crate) fn put_starts(text: &mut [u8], place: usize, steps: &[Step]) -> usize
    ensures { Puts (flat_map (marked space) (cycle_words steps.now)) place text.old text.new result }
{
    let mut at = place;
    for step in turned(steps) {
        at = put_word(text, at, step.from);
    }
    at
}

// The step, after this mark.
fn put_step(text: &mut [u8], at: usize, mark: &[u8], step: &Step) -> usize
    ensures { Puts (mark.now ++ step_text step.now) at text.old text.new result }
{
    let at = put(text, at, mark);
    let at = put_number(text, at, usize::from(step.from));
    let at = put(text, at, b">");
    put_number(text, at, usize::from(step.to))
}

// The steps, with a comma between each and the next.
pub(crate) fn put_steps(text: &mut [u8], place: usize, steps: &[Step]) -> usize
    ensures { Puts (join_with_byte comma (map step_text (turned steps.now))) place text.old text.new result }
{
    let mut at = place;
    let mut mark = b"".as_slice();
    for step in turned(steps) {
        at = put_step(text, at, mark, step);
        mark = b",";
    }
    at
}
