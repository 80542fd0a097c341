// A choice of random runs, with each kind of violation under every model where it may come, each way in which the verdicts of
// the models were found to differ, and each way to synchronise: what the models say, how that is related, and the views.
use crate::answers::{MODELS, told};
use crate::words::{bytes, opened};
use models::name::ModelName;
use runlog::log::Log;
use std::alloc::{AllocError, Global};
use std::process::Abort;
use std::test::Fail;
use views::relaxed::Relaxed;
use views::strengthened::Strengthened;

// A row is the letters of the verdicts under RC20, RA, SRA, WRA and Relaxed (`answers` says what they stand for), and a run.
const ROWS: &str = "
kkkkk | 1.F.rel 1.F.acqrel
ccucc | 1.U.rel.1.3 3.R.rlx.1.1 3.W.rlx.1
ccccc | 1.R.acq.2.2 1.W.rel.2 1.W.rel.1 1.W.rel.1
ccucc | 1.U.rlx.1.2 1.W.rlx.1 1.F.rlx 1.R.rlx.1.1
kkukk | 1.R.acq.2.3 2.W.rel.2 2.U.acqrel.2.2 2.W.rel.1
ttutt | 1.W.rel.1 1.U.rel.1.1 1.U.acq.1.1 1.W.rel.2
bbuwb | 1.F.acqrel 2.U.acqrel.1.5 3.W.rel.1 2.R.rlx.1.3 1.U.acqrel.1.3
bbuwk | 2.W.rlx.2 1.U.acqrel.1.5 1.R.rlx.2.1 2.U.acq.2.1 2.W.rel.1
kbuwk | 1.W.rel.1 1.R.acq.2.5 1.R.rlx.1.1 2.U.rlx.1.1 2.W.rlx.2
kkkkk | 2.W.rel.1 2.R.acq.1.1 3.R.acq.1.1 3.F.acq 3.R.acq.1.1
kkukk | 1.W.rlx.1 1.U.rlx.1.1 1.F.rlx 1.R.rlx.1.2 1.F.rlx
kruwk | 1.W.rlx.2 1.W.rlx.1 2.R.rlx.1.2 2.W.rlx.2 2.U.acqrel.2.1
rrukr | 1.W.rel.1 3.W.rel.1 3.U.acqrel.1.1 2.U.rel.1.2 3.R.acq.1.4
rruwr | 1.W.rel.1 1.R.acq.1.1 1.W.rlx.1 1.W.rlx.1 1.U.acq.1.1
bbuwb | 1.W.rel.1 1.F.rlx 1.U.rlx.1.1 1.R.rlx.1.3 1.R.rlx.1.1 1.U.rel.1.3
ccccc | 1.R.rlx.1.2 1.W.rlx.1 1.F.rlx 1.R.acq.1.6 1.F.acqrel 1.W.rel.1
ccucc | 1.U.acq.1.6 1.W.rel.1 1.U.acqrel.1.6 2.R.acq.1.1 2.F.acq 2.W.rel.1
kbuwk | 3.U.acq.1.5 1.U.rlx.2.3 3.W.rlx.2 3.U.rel.2.2 2.W.rel.1 1.R.acq.1.5
kkhkk | 1.W.rel.1 1.W.rlx.2 1.R.rlx.2.4 3.W.rel.2 3.W.rel.1 3.R.rlx.1.1
kruwk | 2.W.rel.2 3.U.rlx.1.6 3.W.rlx.2 1.R.rlx.2.1 3.R.acq.2.1 2.W.rel.1
rrhkk | 2.W.rel.2 3.R.acq.1.5 1.W.rel.2 3.R.acq.2.3 2.W.rel.1 3.R.acq.2.1
rrhwk | 2.W.rlx.1 2.W.rel.1 2.W.rel.2 1.R.acq.2.3 1.R.rlx.1.1 3.R.acq.2.3
rrhwr | 1.W.rel.1 1.W.rel.1 1.R.rlx.1.6 1.R.acq.1.1 2.F.rlx 2.W.rlx.1
rrukk | 1.U.acqrel.1.4 1.R.acq.2.6 1.U.acqrel.1.1 2.W.rel.1 2.W.rel.1 2.W.rel.2
rrukr | 1.W.rel.1 1.U.rlx.1.3 2.W.rel.1 2.W.rel.1 2.U.acq.1.1 2.W.rlx.2
rruwr | 2.U.rel.1.2 3.W.rlx.1 3.W.rel.1 3.R.acq.1.2 3.F.rel 3.W.rel.2
ttutt | 1.W.rel.1 1.R.acq.1.3 2.U.rel.1.1 2.F.acq 2.W.rel.1 2.U.acq.1.1
bbuwb | 2.W.rlx.1 2.U.rlx.1.7 2.R.acq.1.7 2.F.acqrel 2.F.acq 2.W.rlx.1 1.U.acq.1.1
bbuwk | 1.U.rel.2.4 1.W.rel.1 1.U.acq.1.5 2.W.rel.2 2.U.acqrel.1.2 2.R.acq.2.4 3.W.rel.2
bbuwr | 1.R.acq.1.7 1.R.acq.1.4 2.F.rel 2.W.rel.1 3.U.rel.1.4 3.W.rel.1 3.W.rel.1
bbuwr | 1.U.acqrel.1.5 1.W.rlx.1 1.U.acqrel.1.7 1.R.acq.1.1 2.W.rel.1 2.U.rlx.1.1 2.U.rel.1.2
bbuwr | 2.F.acqrel 2.W.rel.1 1.U.acq.1.2 1.W.rel.1 1.F.acq 2.R.acq.1.4 2.R.acq.1.2
ccccc | 1.F.acq 1.R.acq.2.7 1.F.rel 1.W.rel.2 2.R.acq.2.4 1.F.acq 2.W.rel.2
ccucc | 1.R.acq.1.6 1.W.rlx.1 1.U.rlx.1.6 2.R.acq.1.2 2.F.rel 2.W.rel.1 2.F.rlx
kbuwk | 2.F.acqrel 1.W.rel.2 2.U.rel.1.6 2.R.acq.2.2 1.U.acqrel.2.2 1.W.rel.1 1.W.rel.2
kkhkk | 1.W.rel.2 1.W.rel.1 1.R.acq.1.4 2.W.rel.1 2.W.rel.2 2.R.acq.2.1 2.W.rel.2
kkkkk | 2.W.rel.2 3.R.acq.2.4 2.R.rlx.1.6 1.W.rel.2 3.W.rlx.2 3.W.rel.1 2.R.acq.2.1
kkukk | 3.F.acqrel 2.R.acq.2.3 3.W.rel.2 1.U.acq.2.3 2.W.rel.1 2.U.acq.1.5 3.U.rel.2.4
krhkk | 1.W.rel.1 3.W.rlx.1 1.R.acq.1.2 2.R.rlx.2.5 1.W.rlx.2 2.R.acq.1.1 3.W.rel.2
krhkk | 1.W.rlx.2 1.W.rlx.1 2.R.rlx.1.2 2.R.rlx.2.6 2.R.rlx.2.1 3.W.rlx.2 3.R.rlx.2.1
krhwk | 1.F.rel 1.R.rlx.2.7 1.R.rlx.1.5 2.F.rlx 3.W.rlx.1 3.W.rlx.1 3.W.rel.2
krhwk | 1.R.rlx.1.7 1.W.rel.2 1.R.acq.2.6 1.F.rlx 2.F.rlx 2.W.rel.2 2.W.rlx.1
krukk | 1.U.rlx.2.6 1.W.rlx.1 2.W.rel.1 1.U.rlx.1.7 1.R.rlx.2.1 2.W.rlx.2 2.U.rlx.1.3
krukk | 1.W.rlx.2 1.W.rlx.1 2.U.rlx.2.1 3.R.acq.1.2 3.U.acqrel.1.2 3.W.rel.2 3.U.rlx.2.3
kruwk | 1.W.rel.1 1.W.rlx.2 1.W.rel.2 1.U.rel.1.1 2.U.rlx.1.4 2.U.acq.2.2 2.F.rlx
rbuwr | 1.F.acq 3.W.rlx.1 2.R.rlx.1.7 2.R.rlx.1.2 3.U.rel.1.2 3.W.rel.1 3.W.rel.1
rbuwr | 1.U.acqrel.1.5 1.R.acq.1.1 1.R.rlx.1.1 1.W.rlx.1 2.W.rel.1 2.U.rlx.1.4 2.R.rlx.1.5
rrhkk | 2.W.rel.2 2.W.rel.1 2.W.rel.2 3.W.rel.2 3.R.acq.1.2 3.R.acq.2.4 3.R.acq.2.1
rrhkr | 1.W.rlx.1 1.W.rlx.1 1.R.acq.1.5 2.W.rel.1 2.W.rlx.1 2.W.rel.1 2.R.acq.1.2
rrhkr | 3.F.acqrel 3.W.rel.1 3.W.rel.2 1.F.rel 2.W.rlx.1 2.R.acq.1.2 3.R.rlx.1.5
rrhwk | 1.R.acq.1.6 1.W.rel.2 1.R.acq.2.5 1.F.acq 2.W.rel.2 2.W.rel.1 2.W.rel.1
rrhwr | 1.F.rel 1.W.rel.1 1.F.acqrel 1.R.acq.1.2 1.R.acq.1.2 1.W.rel.1 1.R.acq.1.2
rrhwr | 1.W.rel.1 1.W.rel.1 1.R.acq.1.1 1.F.acq 2.R.acq.1.1 3.R.acq.1.1 3.W.rel.1
rrukk | 1.R.acq.1.7 1.U.rel.2.4 2.W.rel.1 2.W.rel.2 2.R.acq.2.6 3.W.rel.2 3.U.acqrel.1.3
rrukr | 1.W.rel.1 1.U.rel.1.5 1.F.acqrel 2.F.acq 2.W.rel.1 2.F.rel 2.R.acq.1.1
rruwk | 1.R.acq.2.7 1.U.acq.1.4 3.W.rel.1 3.W.rel.1 3.W.rel.1 3.W.rel.1 3.W.rel.2
rruwk | 1.W.rel.1 1.W.rel.1 1.W.rel.2 2.U.acqrel.2.3 1.F.acqrel 2.U.acq.1.1 2.F.acq
rruwk | 3.U.acqrel.1.6 1.W.rlx.1 2.W.rel.2 2.W.rel.2 1.U.acqrel.1.2 2.U.rel.1.5 3.U.rlx.2.3
rruwr | 2.W.rlx.1 1.F.rlx 3.R.acq.1.6 2.U.rel.1.5 1.W.rel.1 1.U.acqrel.1.1 1.R.rlx.1.5
ttutt | 1.U.rlx.2.6 1.R.rlx.2.7 1.U.rlx.2.6 2.F.rlx 2.F.rlx 3.W.rlx.2 3.W.rlx.2
";

// The letters are those that are expected, the order of just the consistent runs is confirmed, and what is consistent under a stronger model is so under a weaker one.
fn check_verdicts(rt: &impl Abort, heap: Global, run: &Log, row: &str) -> Result<(), AllocError> {
    let mut letters = String::new(heap);
    let mut are_consistent = [false; 5];
    for (is_consistent, model) in are_consistent.iter_mut().zip(MODELS) {
        let report = told(heap, model, run)?;
        letters.push_str(report.letter)?;
        *is_consistent = report.is_consistent();
        assert!(rt; report.is_confirmed == *is_consistent, "{row}: {letters}");
    }
    assert!(rt; row.starts_with(letters.as_str()), "{row}: {letters}");
    let [rc20, ra, sra, wra, relaxed] = are_consistent;
    assert!(rt;
        (ra || !sra) && (wra || !ra) && (rc20 || !ra) && (relaxed || !rc20),
        "{row}"
    );
    Ok(())
}

// RC20 says through the strengthened view what RA says of the run, and through the relaxed view what Relaxed says.
fn check_views(rt: &impl Abort, heap: Global, run: Log, row: &str) -> Result<(), AllocError> {
    let ra = told(heap, ModelName::Ra, &run)?;
    let relaxed = told(heap, ModelName::Relaxed, &run)?;
    let view = Strengthened { run };
    assert!(rt; told(heap, ModelName::Rc20, &view)?.says_as(&ra), "{row}");
    let view = Relaxed { run: view.run };
    assert!(rt;
        told(heap, ModelName::Rc20, &view)?.says_as(&relaxed),
        "{row}"
    );
    Ok(())
}

#[test]
fn each_row(rt: HostRuntime) -> Result<(), Fail> {
    for row in ROWS.trim().lines() {
        let (_, words) = row.split_once('|').ok_or("a row has a run")?;
        let bytes = bytes(rt.alloc(), words)?;
        let run = opened(bytes.as_slice())?;
        check_verdicts(&rt, rt.alloc(), &run, row)?;
        check_views(&rt, rt.alloc(), run, row)?;
    }
    Ok(())
}
