// What the views show of a run with each kind in each of its modes.
use crate::words::{bytes, opened};
use executions::execution::Execution;
use std::alloc::{AllocError, Global};
use std::process::Abort;
use std::test::Fail;
use views::relaxed::Relaxed;
use views::strengthened::Strengthened;

// A row is an event of the run, and what the strengthened and the relaxed view show in its place; or, before the first and
// behind the last, what they answer where there is no event.
const ROWS: &str = "
                 | refused 5 0           | refused 5 0
1.W.rlx.1        | T1 W rel L1           | T1 W rlx L1
2.W.rel.64       | T2 W rel L64          | T2 W rlx L64
3.U.rlx.1.1      | T3 U acqrel L1 from 1 | T3 U rlx L1 from 1
4.U.acq.1.3      | T4 U acqrel L1 from 3 | T4 U rlx L1 from 3
5.U.rel.1.4      | T5 U acqrel L1 from 4 | T5 U rlx L1 from 4
6.U.acqrel.1.5   | T6 U acqrel L1 from 5 | T6 U rlx L1 from 5
7.R.rlx.64.2     | T7 R acq L64 from 2   | T7 R rlx L64 from 2
8.R.acq.1.6      | T8 R acq L1 from 6    | T8 R rlx L1 from 6
1.F.rlx          | T1 F acqrel           | T1 F rlx
2.F.acq          | T2 F acqrel           | T2 F rlx
3.F.rel          | T3 F acqrel           | T3 F rlx
4.F.acqrel       | T4 F acqrel           | T4 F rlx
                 | refused 5 13          | refused 5 13
";

fn cell(row: &str, column: usize) -> &str {
    row.split('|').nth(column).unwrap_or("").trim()
}

// Whether the view shows this column of the rows.
fn check_view<E: Execution>(
    rt: &impl Abort,
    heap: Global,
    view: &E,
    column: usize,
) -> Result<(), AllocError> {
    assert_eq!(rt; view.count(), 12);
    for (i, row) in (0..14usize).zip(ROWS.trim_matches('\n').lines()) {
        let text = match view.event(i) {
            Ok(event) => event.to_string(heap)?,
            Err(fault) => fault.to_string(heap)?,
        };
        assert!(rt; text.as_str() == cell(row, column), "{row}: {text}");
    }
    Ok(())
}

// Each view, and each through the other, where the outer one decides.
#[test]
fn each_view(rt: HostRuntime) -> Result<(), Fail> {
    let mut words = String::new(rt.alloc());
    for row in ROWS.lines() {
        words.push_str(cell(row, 0))?;
        words.push(' ')?;
    }
    let bytes = bytes(rt.alloc(), words.as_str())?;
    let run = opened(bytes.as_slice())?;
    let view = Strengthened { run };
    check_view(&rt, rt.alloc(), &view, 1)?;
    let view = Relaxed { run: view };
    check_view(&rt, rt.alloc(), &view, 2)?;
    let view = Relaxed { run: view.run.run };
    check_view(&rt, rt.alloc(), &view, 2)?;
    let view = Strengthened { run: view };
    Ok(check_view(&rt, rt.alloc(), &view, 1)?)
}
