// What a check answers beside the verdict: of the run under RA and Relaxed and through the views, and of the calls on a record.
use crate::answers::{MODELS, checked, line, told};
use crate::buffers::Buffers;
use crate::words::{bytes, opened};
use checker::check::check;
use checker::judged::Judged;
use confirm::by_number::confirm;
use confirm::finding::Finding;
use events::raw::RawEvent;
use models::axiom::Axiom;
use models::model::Sra;
use models::name::ModelName;
use models::rules::ReadsFromRule;
use recorder::fault::RecordFault;
use runlog::log::Log;
use sessions::calls::{Answer, Call};
use sessions::handed::{Handed, ShortPart};
use std::alloc::{AllocError, Global};
use std::process::Abort;
use std::test::Fail;

const RUNS: [&str; 7] = [
    "",
    "1.W.rel.1 1.W.rel.2 1.R.acq.2.4 2.W.rel.2 2.W.rel.1 2.R.acq.1.1",
    "1.W.rlx.1 1.W.rlx.1 1.W.rlx.2 2.R.rlx.2.3 2.R.rlx.1.1",
    "1.W.rlx.1 2.U.rlx.1.1 3.U.rlx.1.1",
    "1.W.rlx.1 2.U.rlx.1.1 2.R.rlx.1.1",
    "1.R.rlx.1.4 1.W.rlx.2 2.R.rlx.2.2 2.W.rlx.1",
    "1.W.rlx.1 2.U.rlx.1.1 3.W.rlx.1 3.R.rlx.1.2",
];

// What was judged in buffers of its own is told as the model tells it; which is the only violation of its kind in these runs.
fn is_told(heap: Global, model: ModelName, run: &Log, judged: &Judged) -> Result<bool, AllocError> {
    let line = line(
        heap,
        model,
        run,
        judged.verdict,
        &judged.order,
        &judged.steps,
    )?;
    Ok(line == told(heap, model, run)?.line)
}

#[test]
fn views_and_models(rt: HostRuntime) -> Result<(), Fail> {
    for words in RUNS {
        let bytes = bytes(rt.alloc(), words)?;
        let run = opened(bytes.as_slice())?;
        for model in MODELS {
            let mut buffers = Buffers::of(rt.alloc(), 512, 512)?;
            let candidate = [3, 1, 2];
            let checked = checked(model, &run, &mut buffers, &candidate);
            let found = confirm(model.number(), &run, &candidate);
            assert!(rt; checked.finding == found, "{words}");
            let heap = rt.alloc();
            let ra = is_told(heap, ModelName::Ra, &run, &checked.ra)?
                && is_told(heap, ModelName::Ra, &run, &checked.through_strengthened)?;
            let relaxed = is_told(heap, ModelName::Relaxed, &run, &checked.relaxed)?
                && is_told(heap, ModelName::Relaxed, &run, &checked.through_relaxed)?;
            assert!(rt; ra && relaxed, "{words}");
        }
    }
    Ok(())
}

const EMPTY: RawEvent = RawEvent {
    thread: 0,
    kind: 0,
    mode: 0,
    location: 0,
    writer: 0,
};

const WRITE: RawEvent = RawEvent {
    thread: 1,
    kind: 2,
    mode: 2,
    location: 1,
    writer: 0,
};

fn note(handed: Handed) -> Call {
    Call::Note {
        handed,
        thread: 1,
        kind: 2,
        mode: 2,
        location: 1,
    }
}

// The calls are carried out whatever becomes of the verdict, here refused for its buffers.
#[test]
fn calls_on_a_record(rt: HostRuntime) -> Result<(), Fail> {
    let other = ShortPart::new(1, 511).ok_or("511 places are too few")?;
    let calls = [
        note(Handed::Other(other)),
        note(Handed::Own(512)),
        Call::Seal {
            handed: Handed::Own(600),
        },
        Call::Count,
    ];
    let mut memory = [EMPTY; 512];
    let mut others = [WRITE; 600];
    let mut answers = [Answer::Barred; 5];
    let bytes = bytes(rt.alloc(), RUNS[1])?;
    let run = opened(bytes.as_slice())?;
    let checked = check::<Sra, Log>(
        &calls,
        &mut memory,
        &mut others,
        &mut answers,
        &ReadsFromRule,
        &run,
        &mut [],
        &mut [],
        &[1, 5, 2, 4],
    );
    assert!(rt; checked.finding == Ok(Finding::Fails(Axiom::ReadCoherence)));
    assert!(rt; checked.verdict.is_err() && checked.confirmed.is_none());
    assert!(rt; checked.ra.verdict.is_ok());
    let expected = [
        Answer::Refused(RecordFault::ShortMemory),
        Answer::Noted(1),
        Answer::Done,
        Answer::Counted(1),
        Answer::Barred,
    ];
    assert!(rt; answers == expected);
    assert!(rt; memory[0] == WRITE);
    assert!(rt; memory[1..].iter().all(|place| *place == EMPTY));
    assert!(rt; others.iter().all(|place| *place == WRITE));
    Ok(())
}
