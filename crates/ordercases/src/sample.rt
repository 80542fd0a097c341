// A sample of random runs, each with an order. It was drawn so that every rule at every scope passes some, and fails others by
// each of its axioms; and so that most ways to misread a definition change an answer somewhere.
use crate::rows::check_groups;
use std::test::Fail;

const GROUPS: &str = "
3.F.rel |
| 000 000 000

1.U.acq.1.2 2.U.acqrel.1.1 | 2-1 2-2
2 1 | 111 111 111

2.U.rlx.1.2 3.U.rlx.1.1 |
2 1 | 111 111 111

3.R.acq.1.2 3.W.rlx.1 |
2 | 111 111 111

2.R.acq.2.3 2.F.acqrel 2.W.rel.2 | 2-1 2-2 3-1 3-2
3 | 111 111 111

1.U.acqrel.2.3 1.U.acqrel.2.3 2.W.rlx.2 |
1 2 3 | 204 223 204

1.W.rel.2 1.U.acqrel.2.1 3.U.rel.2.1 | 1-2
3 1 2 | 204 224 204

3.W.rel.1 2.U.acqrel.1.1 2.U.acqrel.1.1 | 1-2 1-3
2 1 3 | 223 223 204

1.W.rel.1 3.U.acqrel.1.1 2.U.acq.1.1 | 1-2 1-3
3 2 1 | 224 224 204

2.W.rlx.2 2.W.rel.2 2.R.acq.2.1 |
2 1 | 223 223 223

1.U.acqrel.1.3 1.R.acq.1.3 3.W.rel.1 | 3-1 3-2
3 1 | 333 333 330

1.W.rlx.1 2.W.rlx.1 2.U.rlx.1.2 |
2 1 3 | 440 440 440

1.W.rel.1 1.W.rel.2 1.U.rel.1.1 2.U.acq.1.3 | 1-4 3-4
1 3 4 2 | 000 000 000

1.W.rel.2 2.U.rel.2.1 3.R.acq.2.2 3.U.acqrel.2.2 | 1-3 1-4 2-3 2-4
4 2 1 | 220 220 200

1.U.acqrel.1.3 1.U.rlx.1.3 2.W.rel.1 2.R.acq.1.2 | 3-1 3-4
1 2 3 | 223 223 234

1.U.acqrel.1.4 2.U.acqrel.1.1 2.R.acq.1.2 3.W.rlx.1 | 1-2 1-3 2-3
1 2 4 | 230 220 200

2.W.rlx.2 3.U.acqrel.2.1 3.R.rlx.2.2 3.U.acq.2.1 |
2 4 1 | 234 223 234

2.W.rel.2 2.U.acqrel.2.1 3.U.rel.2.1 3.U.acqrel.2.3 | 1-2 1-4 3-4
3 1 4 2 | 234 224 234

1.U.rlx.2.4 1.U.rlx.2.4 2.W.rlx.2 2.U.rlx.2.3 |
3 1 4 2 | 244 223 244

2.W.rel.1 1.U.acq.1.1 2.R.acq.1.2 2.R.acq.1.1 | 1-2 1-3 1-4
1 2 | 330 333 330

1.R.acq.1.3 1.W.rel.2 2.W.rlx.1 3.R.acq.2.2 3.W.rlx.1 | 2-4
5 3 2 | 200 220 000

1.W.rel.2 2.F.acqrel 3.U.rlx.2.1 3.R.acq.2.3 3.U.acq.2.1 | 1-4 1-5
3 5 1 | 224 223 234

3.W.rel.1 1.W.rlx.1 3.U.rlx.1.1 2.W.rel.1 3.U.acqrel.1.1 | 1-5
1 2 3 4 5 | 333 333 333

2.W.rel.2 1.W.rel.2 2.W.rel.1 2.R.acq.2.1 2.U.rel.2.1 | 1-4
3 1 2 5 | 440 440 440

1.W.rel.2 1.W.rel.1 2.W.rel.3 2.W.rel.2 3.W.rlx.1 3.W.rlx.3 |
2 5 4 1 6 3 | 020 020 020

1.W.rlx.1 1.W.rlx.1 1.W.rlx.2 2.R.acq.2.6 2.W.rlx.1 3.U.rel.2.3 | 6-4
1 5 2 3 6 | 020 220 000

1.W.rlx.1 1.F.acqrel 1.W.rlx.2 2.R.acq.2.3 2.W.rel.1 2.R.rlx.1.1 | 2-4
5 1 3 | 223 223 000

1.W.rlx.1 1.F.acqrel 1.W.rlx.2 2.U.rlx.2.3 2.F.acqrel 2.W.rlx.1 | 2-5
6 1 3 4 | 220 220 020

1.R.acq.1.3 1.W.rel.1 2.W.rel.1 3.R.acq.1.3 3.U.rlx.1.2 3.U.rel.1.2 | 3-1 3-4
5 3 6 2 | 224 223 204

1.R.rlx.1.3 1.R.rlx.1.5 2.U.acqrel.1.5 2.R.acq.1.3 3.W.rel.1 3.R.acq.1.3 | 3-4 3-6 5-3 5-4 5-6
3 5 | 220 223 230

2.W.rel.1 2.W.rel.1 1.R.acq.1.2 1.W.rel.1 1.U.acqrel.1.4 1.U.rel.1.2 | 2-3 4-5
1 4 2 5 6 | 223 223 230

1.W.rel.2 1.U.acqrel.2.1 1.R.acq.2.1 3.W.rel.1 2.U.acq.2.1 3.U.acq.1.4 | 1-2 1-3 1-5 4-6
4 6 5 1 2 | 223 223 233

1.W.rel.2 1.U.rel.1.4 2.W.rel.1 2.U.rel.1.3 3.U.acqrel.1.3 3.U.acqrel.2.1 | 1-6 3-5
3 5 4 2 6 1 | 224 224 244

1.U.acq.1.3 2.W.rlx.1 2.U.acq.1.2 2.U.acqrel.1.3 2.R.acq.1.4 3.R.acq.1.4 | 4-5 4-6
2 1 3 4 | 244 224 244

1.W.rlx.1 1.W.rlx.1 1.W.rel.2 2.R.acq.2.3 2.W.rel.1 2.R.rlx.1.1 | 3-4
1 5 2 3 | 223 223 330

1.W.rlx.1 1.W.rel.2 2.W.rlx.2 2.R.acq.2.6 2.W.rlx.1 3.U.rlx.2.2 | 2-4
5 1 2 3 6 | 220 220 420

1.W.rlx.1 1.W.rlx.1 1.W.rlx.1 1.W.rel.2 2.R.acq.2.4 2.U.rlx.1.1 | 4-5
1 2 6 3 4 | 223 223 440

1.R.rlx.1.5 1.W.rlx.2 1.W.rlx.1 2.W.rlx.2 2.W.rlx.1 2.R.rlx.2.2 |
5 3 2 4 | 330 220 330

1.W.rel.1 1.R.rlx.1.5 1.U.acq.1.1 2.R.acq.1.1 2.U.acqrel.1.1 2.F.rel | 1-3 1-4 1-5
1 5 3 | 334 333 334

1.W.rel.1 1.U.acqrel.1.1 1.F.acqrel 2.F.acqrel 2.W.rel.1 2.U.acq.1.1 | 1-2 1-3 1-6
1 2 5 6 | 334 334 334

1.W.rlx.1 1.R.acq.2.6 1.U.rlx.1.1 2.W.rel.1 3.U.acqrel.1.4 3.W.rlx.2 | 4-5
1 4 3 5 6 | 440 220 440

1.W.rlx.1 1.W.rlx.1 1.F.rlx 1.W.rlx.2 2.R.acq.2.7 2.U.rlx.1.1 3.U.acqrel.2.4 | 7-5
1 6 2 4 7 | 020 223 000

1.W.rlx.1 1.W.rlx.1 1.W.rel.2 2.R.rlx.2.3 2.W.rel.2 2.F.acq 2.U.rlx.1.1 | 3-6
1 7 2 3 5 | 223 223 020

1.W.rlx.1 1.F.acqrel 1.W.rlx.1 1.W.rlx.2 2.R.acq.2.7 2.U.rlx.1.1 3.U.rlx.2.4 | 2-5
6 1 3 4 7 | 220 223 200

1.W.rlx.1 1.W.rlx.1 1.F.rel 1.W.rel.2 1.W.rlx.2 2.R.acq.2.5 2.U.rlx.1.1 | 3-6
1 2 7 5 4 | 223 223 220

1.W.rel.1 1.W.rel.2 1.U.acq.1.1 1.U.acq.1.3 2.U.acq.1.3 2.R.acq.1.5 3.W.rel.2 | 1-3 1-4 1-5 1-6
5 1 3 4 2 7 | 224 224 234

1.W.rlx.1 1.W.rlx.1 1.W.rel.2 1.W.rel.2 2.R.rlx.2.7 2.U.rlx.1.1 3.U.acqrel.2.4 | 4-7
1 2 6 7 3 4 | 220 223 240

1.R.rlx.1.5 1.W.rlx.1 1.U.acq.1.2 2.F.rlx 2.W.rel.1 3.F.acq 3.W.rlx.1 |
2 3 5 7 | 230 220 230

1.R.acq.1.4 1.W.rel.1 2.W.rel.1 2.W.rlx.1 2.R.rlx.1.2 2.R.acq.1.3 2.F.acq | 2-7 3-6 3-7
2 3 4 | 233 223 233

1.W.rlx.1 1.F.acqrel 1.W.rlx.2 2.W.rlx.2 2.R.rlx.2.3 2.F.acq 2.W.rlx.1 | 2-6
7 1 3 4 | 220 220 320

1.W.rlx.1 1.W.rlx.1 1.W.rlx.2 2.W.rlx.2 2.R.acq.2.3 2.W.rel.1 2.R.rlx.1.1 |
6 1 2 3 4 | 320 223 320

1.W.rlx.1 1.W.rlx.1 1.W.rel.2 2.U.rlx.2.3 2.W.rel.1 2.R.acq.2.4 2.R.rlx.1.1 | 3-6
1 5 2 3 4 | 323 223 320

1.W.rlx.1 1.W.rel.2 2.U.rlx.2.2 2.W.rel.2 2.R.rlx.2.3 2.W.rlx.1 3.W.rlx.1 |
6 1 7 2 3 4 | 323 223 323

1.W.rlx.1 1.W.rlx.1 1.W.rlx.2 2.F.acqrel 2.R.acq.2.3 2.W.rel.1 2.R.rlx.1.1 |
1 6 2 3 | 330 223 330

1.W.rel.1 1.W.rel.2 2.U.rel.2.2 2.R.acq.2.7 2.R.rlx.1.6 3.W.rlx.1 3.U.rlx.2.3 | 2-4 3-4
6 1 2 3 7 | 330 330 000

2.W.rel.1 1.W.rel.2 1.W.rel.1 1.R.acq.1.1 1.U.acqrel.1.3 2.W.rel.2 1.U.acq.2.6 | 1-4 3-5 6-7
3 1 5 6 2 7 | 320 320 320

1.W.rlx.1 1.W.rlx.1 1.W.rel.2 2.U.rel.2.7 2.F.acqrel 2.U.rlx.1.1 3.U.rlx.2.3 | 3-5
1 2 6 3 7 4 | 333 333 440

1.W.rlx.1 1.W.rlx.1 1.W.rel.1 1.W.rlx.2 2.U.rlx.2.4 2.R.acq.2.5 2.U.rlx.1.1 |
1 2 7 3 4 5 | 420 223 420

1.W.rlx.2 1.U.rel.2.1 1.W.rlx.1 1.W.rel.1 2.W.rlx.1 3.U.acqrel.1.3 3.U.rlx.2.1 |
3 6 5 4 1 2 7 | 444 333 444

2.W.rel.2 2.W.rel.1 3.U.acq.2.1 3.R.acq.1.2 3.U.rel.2.3 3.R.acq.1.2 1.U.acq.2.3 | 1-3 1-7 2-4 2-6
2 1 3 5 7 | 444 444 444
";

#[test]
fn each_run(rt: HostRuntime) -> Result<(), Fail> {
    check_groups(&rt, rt.alloc(), GROUPS)
}
