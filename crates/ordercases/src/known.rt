// Runs that are known, each under a name.
use crate::rows::check_groups;
use std::test::Fail;

// Shapes that tell the models apart, most of them with every order: a write that may not come between an update and its
// writer; a value handed over by a flag that is released and acquired, or is not; two writes against two, and three pairs in a
// ring; readers that disagree on what came first; and what a thread may see of one location.
const SHAPES: &str = "
no events: |
| 000 000 000

update in between: 1.W.rlx.1 2.U.rlx.1.1 3.W.rlx.1 3.R.rlx.1.2 |
1 2 3 | 330 330 330
1 3 2 | 440 440 440
2 1 3 | 230 220 230
2 3 1 | 230 220 230
3 1 2 | 000 000 000
3 2 1 | 200 220 200

handed over: 1.W.rlx.1 1.W.rlx.1 1.W.rel.2 2.R.acq.2.3 2.R.rlx.1.1 | 3-4
1 2 3 | 333 333 000
2 1 3 | 223 223 220

not acquired: 1.W.rlx.1 1.W.rlx.1 1.W.rel.2 2.R.rlx.2.3 2.R.rlx.1.1 |
1 2 3 | 000 333 000
2 1 3 | 220 223 220

not released: 1.W.rlx.1 1.W.rlx.1 1.W.rlx.2 2.R.acq.2.3 2.R.rlx.1.1 |
1 2 3 | 000 333 000
2 1 3 | 220 223 220

two against two: 1.W.rel.1 1.W.rel.2 1.R.acq.2.4 2.W.rel.2 2.W.rel.1 2.R.acq.1.1 | 1-6 4-3
1 5 2 4 | 330 330 330
1 5 4 2 | 330 330 330
5 1 2 4 | 020 020 020
5 1 4 2 | 330 330 330

three in a ring: 1.W.rlx.1 1.W.rlx.2 2.W.rlx.2 2.W.rlx.3 3.W.rlx.3 3.W.rlx.1 |
6 1 2 3 4 5 | 020 020 020
6 1 3 2 4 5 | 000 000 000

two readers: 1.W.rlx.1 1.W.rlx.2 2.W.rel.1 3.W.rel.2 4.R.acq.1.3 4.R.acq.2.2 5.R.acq.2.4 5.R.acq.1.1 | 3-5 4-7
1 3 2 4 | 000 000 000
3 1 2 4 | 000 000 000

write, write: 1.W.rlx.1 1.W.rlx.1 |
1 2 | 000 000 000
2 1 | 220 220 220

read, read: 1.W.rlx.1 1.W.rlx.1 2.R.rlx.1.2 2.R.rlx.1.1 |
1 2 | 330 333 330
2 1 | 220 223 220

write, read: 1.W.rlx.1 2.W.rlx.1 2.R.rlx.1.1 |
1 2 | 330 330 330
2 1 | 000 000 000

read, write: 1.W.rlx.1 2.R.rlx.1.1 2.W.rlx.1 |
1 3 | 000 000 000
3 1 | 200 220 200
";

// Against causality: no order passes, and the rules still answer.
const CYCLES: &str = "
two threads: 1.R.rlx.1.4 1.W.rlx.2 2.R.rlx.2.2 2.W.rlx.1 |
4 2 | 111 111 111

three threads: 1.R.acq.1.6 1.W.rel.2 2.R.acq.2.2 2.W.rel.3 3.R.acq.3.4 3.W.rel.1 | 2-3 4-5 6-1
6 2 4 | 111 111 111

one thread: 1.R.rlx.1.2 1.W.rlx.1 |
2 | 111 111 111

two updates: 1.U.rlx.1.2 2.U.rlx.1.1 |
1 2 | 111 111 111
2 1 | 111 111 111

with themselves: 1.U.acqrel.1.2 2.U.acqrel.1.1 | 1-1 1-2 2-1 2-2
1 2 | 111 111 111
2 1 | 111 111 111

read from outside: 1.U.rel.1.3 2.U.rlx.1.1 3.U.acq.1.2 1.R.acq.1.2 | 1-3 1-4
1 2 3 | 111 111 111
";

// Two updates of one writer; updates that read from each other, in and against the order of their numbers.
const UPDATES: &str = "
one writer: 1.W.rlx.1 2.U.rlx.1.1 3.U.rlx.1.1 |
1 2 3 | 444 444 444
1 3 2 | 444 444 444
2 1 3 | 204 224 204
2 3 1 | 204 224 204
3 1 2 | 204 224 204
3 2 1 | 204 224 204

one writer and thread: 1.W.rlx.1 2.U.rlx.1.1 2.U.rlx.1.1 |
1 2 3 | 334 333 334
1 3 2 | 224 223 224
2 1 3 | 204 223 204
2 3 1 | 204 223 204
3 1 2 | 224 223 224
3 2 1 | 224 223 224

an update and a read: 1.W.rlx.1 2.U.rlx.1.1 3.R.rlx.1.1 |
1 2 | 000 000 000
2 1 | 200 220 200

from a later number: 1.W.rlx.1 1.U.rlx.1.3 2.U.rlx.1.1 |
1 2 3 | 240 220 240
1 3 2 | 000 000 000
2 1 3 | 220 220 220
2 3 1 | 220 220 220
3 1 2 | 230 220 230
3 2 1 | 220 220 220

a chain: 1.W.rel.1 2.U.rlx.1.1 3.U.rlx.1.2 1.U.acq.1.3 | 1-4
1 2 3 4 | 000 000 000
1 2 4 3 | 240 220 240
1 3 2 4 | 240 220 240
2 1 3 4 | 240 220 240
4 3 2 1 | 220 220 220
";

// A release is heard through updates, and through no plain write, be it of its own thread.
const SEQUENCES: &str = "
two updates: 1.W.rel.1 2.U.rlx.1.1 3.U.rlx.1.2 4.R.acq.1.3 | 1-4
1 2 3 | 000 000 000

a write: 1.W.rel.1 1.W.rlx.1 2.R.acq.1.2 |
1 2 | 000 000 000

a write and an update: 1.W.rel.1 1.W.rlx.1 2.U.rlx.1.2 3.R.acq.1.3 |
1 2 3 | 000 000 000

an update of its own: 1.W.rel.1 1.U.rlx.1.1 2.R.acq.1.2 | 1-3
1 2 | 000 000 000

branches: 1.W.rel.1 2.U.acqrel.1.1 3.R.acq.1.2 4.R.acq.1.1 4.R.rlx.1.2 | 1-2 1-3 1-4 2-3
1 2 | 000 000 000

within a thread: 1.W.rel.1 1.R.acq.1.1 | 1-2
1 | 000 000 000

handed over: 1.W.rlx.1 1.W.rlx.1 1.W.rel.2 3.U.rlx.2.3 2.R.acq.2.4 2.R.rlx.1.1 | 3-5
1 2 3 4 | 333 333 000
2 1 3 4 | 223 223 220
";

// A fence releases for the writes after it and acquires for the reads before it, if its mode does, and on its own does
// nothing.
const FENCES: &str = "
fence to fence: 1.F.rel 1.W.rlx.1 2.R.rlx.1.2 2.F.acq | 1-4
2 | 000 000 000

of both modes: 1.F.acqrel 1.W.rlx.1 2.R.rlx.1.2 2.F.acqrel | 1-4
2 | 000 000 000

fence to load: 1.F.rel 1.W.rlx.1 2.R.acq.1.2 | 1-3
2 | 000 000 000

write to fence: 1.W.rel.1 2.R.rlx.1.1 2.F.acq | 1-3
1 | 000 000 000

all four: 1.F.rel 1.W.rel.1 2.R.acq.1.2 2.F.acq | 1-3 1-4 2-3 2-4
2 | 000 000 000

relaxed fences: 1.F.rlx 1.W.rlx.1 2.R.rlx.1.2 2.F.rlx |
2 | 000 000 000

beside strong accesses: 1.F.rlx 1.W.rel.1 2.R.acq.1.2 2.F.rlx | 2-3
2 | 000 000 000

modes exchanged: 1.F.acq 1.W.rlx.1 2.R.rlx.1.2 2.F.rel |
2 | 000 000 000

on the wrong side: 1.W.rlx.1 1.F.rel 2.F.acq 2.R.rlx.1.1 |
1 | 000 000 000

no access: 1.F.acqrel 2.F.acqrel |
| 000 000 000

no fence: 1.W.rel.1 1.W.rlx.2 2.R.rlx.2.2 2.R.acq.1.1 | 1-4
1 2 | 000 000 000

through an update: 1.F.rel 1.W.rlx.1 2.U.rlx.1.2 3.R.rlx.1.3 3.F.acq | 1-5
2 3 | 000 000 000

within a thread: 1.F.acqrel 1.W.rlx.1 1.R.rlx.1.2 1.F.acqrel | 1-4
2 | 000 000 000

several: 1.F.rel 1.F.rel 1.W.rlx.1 1.W.rlx.2 2.R.rlx.2.4 2.R.rlx.1.3 2.F.acq 2.F.acq | 1-7 1-8 2-7 2-8
3 4 | 000 000 000

handed over: 1.W.rlx.1 1.W.rlx.1 1.F.rel 1.W.rlx.2 2.R.rlx.2.4 2.F.acq 2.R.rlx.1.1 | 3-6
1 2 4 | 333 333 000
2 1 4 | 223 223 220

not handed over: 1.W.rlx.1 1.W.rlx.1 1.F.rel 1.W.rlx.2 2.R.rlx.2.4 2.F.rlx 2.R.rlx.1.1 |
1 2 4 | 000 333 000
2 1 4 | 220 223 220
";

#[test]
fn each_run(rt: HostRuntime) -> Result<(), Fail> {
    for groups in [SHAPES, CYCLES, UPDATES, SEQUENCES, FENCES] {
        check_groups(&rt, rt.alloc(), groups)?;
    }
    Ok(())
}
