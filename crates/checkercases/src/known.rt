// The runs of `samples/`, but for the longest, and the lines that are printed of each.
use crate::answers::lines;
use crate::words::{bytes, opened};
use std::test::Fail;

// A group is a run under its name, and below it a line for each model. Groups stand apart by blank lines.
const RUNS: &str = "
no events:
RC20 consistent
RA consistent
SRA consistent
WRA consistent
RELAXED consistent

two writes each way: 1.W.rel.1 1.W.rel.2 1.R.acq.2.4 2.W.rel.2 2.W.rel.1 2.R.acq.1.1
RC20 consistent 1:5<1 2:2<4
RA consistent 1:5<1 2:2<4
SRA inconsistent WHOLE 1 2 4 5
WRA consistent
RELAXED consistent 1:5<1 2:2<4

handing over: 1.W.rlx.1 1.W.rlx.1 1.W.rel.2 2.R.acq.2.3 2.R.rlx.1.1
RC20 inconsistent ROUND 1:1>2,2>1
RA inconsistent ROUND 1:1>2,2>1
SRA inconsistent WHOLE 1 2
WRA inconsistent WEAK 1 2 5
RELAXED consistent 1:1<2 2:3

handing over relaxed: 1.W.rlx.1 1.W.rlx.1 1.W.rel.2 2.R.rlx.2.3 2.R.rlx.1.1
RC20 consistent 1:1<2 2:3
RA inconsistent ROUND 1:1>2,2>1
SRA inconsistent WHOLE 1 2
WRA inconsistent WEAK 1 2 5
RELAXED consistent 1:1<2 2:3

twins: 1.W.rlx.1 2.U.rlx.1.1 3.U.rlx.1.1
RC20 inconsistent TWIN 2 3
RA inconsistent TWIN 2 3
SRA refused 24 2
WRA inconsistent TWIN 2 3
RELAXED inconsistent TWIN 2 3

back: 1.W.rlx.1 2.U.rlx.1.1 2.R.rlx.1.1
RC20 inconsistent BACK 2 1
RA inconsistent BACK 2 1
SRA refused 24 2
WRA inconsistent WEAK 1 2 3
RELAXED inconsistent BACK 2 1

load buffering: 1.R.rlx.1.4 1.W.rlx.2 2.R.rlx.2.2 2.W.rlx.1
RC20 inconsistent CAUSAL 1 2 3 4
RA inconsistent CAUSAL 1 2 3 4
SRA inconsistent CAUSAL 1 2 3 4
WRA inconsistent CAUSAL 1 2 3 4
RELAXED inconsistent CAUSAL 1 2 3 4

update in between: 1.W.rlx.1 2.U.rlx.1.1 3.W.rlx.1 3.R.rlx.1.2
RC20 consistent 1:3<1<2
RA consistent 1:3<1<2
SRA refused 24 2
WRA consistent
RELAXED consistent 1:3<1<2

chains: 1.W.rlx.1 2.U.rlx.1.1 3.W.rlx.1 1.U.rlx.1.2
RC20 consistent 1:1<2<4<3
RA consistent 1:1<2<4<3
SRA refused 24 2
WRA consistent
RELAXED consistent 1:1<2<4<3

round through chains: 1.W.rlx.1 2.U.rlx.1.1 3.W.rlx.1 4.U.rlx.1.3 1.R.rlx.1.4 3.R.rlx.1.2
RC20 inconsistent ROUND 1:1>4,3>2
RA inconsistent ROUND 1:1>4,3>2
SRA refused 24 2
WRA consistent
RELAXED inconsistent ROUND 1:1>4,3>2

fences: 1.W.rlx.1 1.W.rlx.1 1.F.rel 1.W.rlx.2 2.R.rlx.2.4 2.F.acq 2.R.rlx.1.1
RC20 inconsistent ROUND 1:1>2,2>1
RA inconsistent ROUND 1:1>2,2>1
SRA inconsistent WHOLE 1 2
WRA inconsistent WEAK 1 2 7
RELAXED consistent 1:1<2 2:4

fences through an update: 1.W.rlx.1 1.W.rlx.1 1.F.rel 1.W.rlx.2 2.U.rlx.2.4 3.R.rlx.2.5 3.F.acq 3.R.rlx.1.1
RC20 inconsistent ROUND 1:1>2,2>1
RA inconsistent ROUND 1:1>2,2>1
SRA refused 24 5
WRA inconsistent WEAK 1 2 8
RELAXED consistent 1:1<2 2:4<5

fences past a relaxed read: 1.W.rlx.1 1.W.rlx.1 1.F.rel 1.W.rlx.2 2.R.rlx.2.4 2.W.rlx.3 3.R.rlx.3.6 3.F.acq 3.R.rlx.1.1
RC20 consistent 1:1<2 2:4 3:6
RA inconsistent ROUND 1:1>2,2>1
SRA inconsistent WHOLE 1 2
WRA inconsistent WEAK 1 2 9
RELAXED consistent 1:1<2 2:4 3:6

orders that differ: 1.R.rlx.1.4 1.W.rlx.2 2.W.rlx.2 3.W.rlx.1
RC20 consistent 1:4 2:2<3
RA consistent 1:4 2:2<3
SRA consistent 1:4 2:3<2
WRA consistent
RELAXED consistent 1:4 2:2<3

several locations: 1.W.rlx.3 1.W.rel.1 2.U.acqrel.1.2 2.W.rlx.64 3.U.rlx.1.3 3.W.rlx.3 4.W.rlx.1 4.R.rlx.1.5 2.U.rlx.3.6 5.U.rel.64.4 5.F.acqrel 5.W.rlx.3 5.R.rlx.3.1
RC20 consistent 1:7<2<3<5 3:12<1<6<9 64:4<10
RA inconsistent ROUND 3:1>12,12>1
SRA refused 24 3
WRA inconsistent WEAK 1 12 13
RELAXED consistent 1:7<2<3<5 3:6<9<12<1 64:4<10
";

#[test]
fn each_line(rt: HostRuntime) -> Result<(), Fail> {
    for group in RUNS.trim().split("\n\n") {
        let (run, expected) = group.split_once('\n').ok_or("a run has lines below it")?;
        let (_, words) = run.split_once(':').ok_or("a run has a name")?;
        let bytes = bytes(rt.alloc(), words)?;
        let printed = lines(rt.alloc(), &opened(bytes.as_slice())?)?;
        assert!(rt; printed.as_str().trim() == expected, "{run}: {printed}");
    }
    Ok(())
}
