//! What the program prints of a log.
ghost use Rattle.std.specs.Prelude.{◌≡◌, ◌+◌, ◌≤◌, ◌++◌, [], codes, length, IsOk};
ghost use Rattle.runlog.specs.Opening.{run_of};
ghost use Rattle.runtext.specs.Text.{refusal_text};
ghost use Rattle.sessions.specs.Recording.{recording, Records};
ghost use Rattle.verdicttext.specs.Text.{line_text};
ghost use Rattle.report.specs.Longest.{longest_line, longest_report};
ghost use Rattle.report.specs.Report.{Begins, LineBehind, AreLines, IsPrinted, Reports};

use checker::check::check;
use events::limits::MAX_EVENTS;
use events::raw::RawEvent;
use events::text::write_refused;
use executions::fault::CheckerFault;
use models::model::{Model, Ra, Rc20, Relaxed, Sra, Wra};
use models::name::ModelName;
use models::rc20::Rc20Rule;
use models::rules::{EmptyRule, ReadsFromRule};
use runlog::fault::LogFault;
use runlog::log::Log;
use runlog::opening::open_log;
use sessions::calls::{Answer, Call};
use sessions::recording::{MOST_CALLS, recording};
use verdicts::step::{Sort, Step};
use verdicts::verdict::Verdict;
use verdicttext::line::{LONGEST_LINE, write_line as write_verdict};
use writing::pen::Pen;
use writing::put::Full;

/// No text that is printed of a log is longer: a line and its end for each of the five models.
pub const LONGEST_REPORT: usize = 5 * (LONGEST_LINE + 1);

const NO_STEP: Step = Step {
    from: 0,
    to: 0,
    sort: Sort::Po,
};

const NO_EVENT: RawEvent = RawEvent {
    thread: 0,
    kind: 0,
    mode: 0,
    location: 0,
    writer: 0,
};

// Writes the line of an answer, and its end. Where the end does not fit, the line stays.
fn begin_line(
    text: &mut Pen<LONGEST_REPORT>,
    model: ModelName,
    run: &Log,
    answer: Result<Verdict, CheckerFault>,
    order: &[u16],
    steps: &[Step],
) -> Result<(), Full>
    ensures { Begins LONGEST_REPORT (line_text model (run_of run.now) answer order.now steps.now ++ codes "\n") text.old text.new result }
{
    let mut line = [0; LONGEST_REPORT];
    let count = write_verdict(model, run, answer, order, steps, &mut line)?;
    text.push_all(&line[..count])?;
    text.push(b'\n')
}

// Writes the line of a refusal.
fn begin_refusal(text: &mut Pen<LONGEST_REPORT>, fault: LogFault) -> Result<(), Full>
    ensures { Begins LONGEST_REPORT (refusal_text fault) text.old text.new result }
{
    let mut refusal = [0; LONGEST_REPORT];
    let count = write_refused(&fault, &mut refusal)?;
    text.push_all(b"log ")?;
    text.push_all(&refusal[..count])?;
    text.push(b'\n')
}

// Checks the run under the model, with the calls that record it, and writes the line.
fn write_line<M: Model>(
    text: &mut Pen<LONGEST_REPORT>,
    model: ModelName,
    rule: &M::Synchronises,
    run: &Log,
    calls: &[Call],
) -> Result<(), Full>
    requires room { length text.old + (longest_line + 1) ≤ longest_report }
    requires calls { calls.now ≡ recording (run_of run.now) }
    requires records { Records (run_of run.now) }
    ensures fits { IsOk result }
    ensures line { LineBehind model M.SCOPE (M.Synchronises.Rule.pairs rule.now (run_of run.now)) (run_of run.now) text.old text.new }
{
    let mut memory = [NO_EVENT; MAX_EVENTS];
    let mut answers = [Answer::Barred; MOST_CALLS];
    let mut order = [0; MAX_EVENTS];
    let mut steps = [NO_STEP; MAX_EVENTS];
    let checked = check::<M, Log>(
        calls,
        &mut memory,
        &mut [],
        &mut answers,
        rule,
        run,
        &mut order,
        &mut steps,
        &[],
    );
    begin_line(text, model, run, checked.verdict, &order, &steps)
}

// A line for each model by its number.
fn write_lines(text: &mut Pen<LONGEST_REPORT>, run: &Log, calls: &[Call]) -> Result<(), Full>
    requires empty { text.old ≡ [] }
    requires calls { calls.now ≡ recording (run_of run.now) }
    requires records { Records (run_of run.now) }
    ensures fits { IsOk result }
    ensures lines { AreLines (run_of run.now) text.new }
    ensures bound { length text.new ≤ longest_report }
{
    write_line::<Rc20>(text, ModelName::Rc20, &Rc20Rule, run, calls)?;
    write_line::<Ra>(text, ModelName::Ra, &ReadsFromRule, run, calls)?;
    write_line::<Sra>(text, ModelName::Sra, &ReadsFromRule, run, calls)?;
    write_line::<Wra>(text, ModelName::Wra, &ReadsFromRule, run, calls)?;
    write_line::<Relaxed>(text, ModelName::Relaxed, &EmptyRule, run, calls)
}

// The refusal, or the lines.
fn write_report(text: &mut Pen<LONGEST_REPORT>, log: &[u8]) -> Result<(), Full>
    requires { text.old ≡ [] }
    ensures fits { IsOk result }
    ensures prints { IsPrinted log.now text.new }
    ensures bound { length text.new ≤ longest_report }
{
    let mut run = Log::empty();
    if let Err(fault) = open_log(log, &mut run) {
        return begin_refusal(text, fault);
    }
    let mut calls = [Call::Reopen; MOST_CALLS];
    match recording(&run, &mut calls) {
        Some(count) => write_lines(text, &run, &calls[..count]),
        None => Err(Full),
    }
}

/// Writes what the program prints of these bytes at the front of the text, and answers how many characters that are: the refusal
/// of a log that does not open, else a line for each model. Every other place of the text is as it was. Where it does not fit it is
/// refused, and all is as it was; a text of `LONGEST_REPORT` places always suffices.
pub fn report(log: &[u8], text: &mut [u8]) -> Result<usize, Full>
    ensures text { Reports log.now text.old text.new result }
    ensures suffices { LONGEST_REPORT ≤ length text.old → IsOk result }
{
    let mut pen = Pen::new();
    write_report(&mut pen, log)?;
    pen.copy_into(text)
}
