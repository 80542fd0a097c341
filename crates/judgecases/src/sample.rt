// A sample of random runs. It was drawn so that each outcome comes by every rule at every scope where it may, with cycles
// of several lengths; and so that most ways to misread a definition change what is told somewhere.
use crate::rows::check_groups;
use std::test::Fail;

// Up to five events.
const UP_TO_FIVE: &str = "
1.R.rlx.1.2 1.W.rel.1
location | causal 2
whole | causal 2
weak | causal 2

1.R.rlx.1.2 1.W.rlx.1
location | causal 2
whole | causal 2
weak | causal 2

1.U.rlx.1.2 1.W.rlx.1
location | causal 2
whole | refused 24 1
weak | causal 2

1.U.rlx.1.2 2.U.acq.1.1
location | causal 2
whole | refused 24 1
weak | causal 2

2.U.rlx.1.2 1.U.rlx.1.1
location | causal 2
whole | refused 24 1
weak | causal 2

1.U.acqrel.1.2 3.W.rel.1 1.R.acq.1.2
location | back 1 2
whole | refused 24 1
weak | weak 2 1 3 | weak 2 1 3 | order

1.U.acqrel.1.3 1.U.rlx.1.3 1.W.rlx.1
location | causal *
whole | refused 24 1
weak | causal *

1.U.acqrel.1.3 2.U.rlx.1.1 3.U.acq.1.2
location | causal 3
whole | refused 24 1
weak | causal 3

1.U.rel.1.2 3.U.acq.1.3 2.U.rel.1.1
location | causal 3
whole | refused 24 1
weak | causal 3

1.U.rel.1.3 2.U.rlx.1.1 3.U.acq.1.2
location | causal 3
whole | refused 24 1
weak | causal 3

1.U.rlx.1.3 1.U.rlx.1.3 1.U.rlx.1.2
location | causal *
whole | refused 24 1
weak | causal *

1.U.rlx.1.3 2.W.rlx.1 3.W.rlx.1
location | order 2 3 1
whole | refused 24 1
weak | order

1.W.rlx.1 1.U.rlx.1.1 1.U.rlx.1.1
location | twin 2 3
whole | refused 24 2
weak | twin 2 3

1.W.rlx.1 2.U.rlx.1.1 3.U.acq.1.1
location | twin 2 3
whole | refused 24 2
weak | twin 2 3

1.R.acq.1.3 1.W.rlx.1 2.W.rlx.1 2.W.rlx.1
location | order 3 2 4
whole | order 2 3 4 | order 3 2 4 | order 2 3 4
weak | order

1.R.rlx.1.3 1.R.rlx.1.4 1.W.rlx.1 1.W.rel.1
location | causal *
whole | causal *
weak | causal *

1.U.acqrel.1.4 1.W.rel.1 1.R.acq.1.4 3.W.rel.1
location | back 1 4
whole | refused 24 1
weak | weak 4 * 3 | weak 4 * 3 | order

1.U.rlx.1.4 1.W.rlx.2 2.R.rlx.2.2 2.W.rlx.1
location | causal 4
whole | refused 24 1
weak | causal 4

1.W.rlx.1 1.W.rel.1 1.W.rel.1 1.R.acq.1.1
location | round 1 *
whole | whole *
weak | weak 1 * 4

1.W.rlx.1 1.W.rlx.1 1.W.rlx.1 1.R.rlx.1.1
location | round 1 *
whole | whole *
weak | weak 1 * 4

1.W.rlx.1 1.W.rlx.1 2.R.acq.1.2 2.R.rlx.1.1
location | round 1 2
whole | whole 2
weak | order | weak 1 2 4 | order

1.W.rlx.1 2.R.acq.1.3 1.W.rlx.1 2.R.rlx.1.1
location | round 1 2
whole | whole 2
weak | order | weak 1 3 4 | order

1.W.rlx.1 2.U.rlx.1.1 3.W.rel.1 3.R.acq.1.2
location | order 3 1 2
whole | refused 24 2
weak | order

1.W.rlx.1 2.U.rlx.1.1 3.W.rlx.1 3.R.rlx.1.2
location | order 3 1 2
whole | refused 24 2
weak | order

1.W.rlx.1 2.U.rlx.1.1 3.W.rlx.1 3.U.rlx.1.2
location | order 3 1 2 4
whole | refused 24 2
weak | order

1.W.rlx.1 2.W.rlx.1 2.U.rlx.1.1 2.U.rlx.1.1
location | twin 3 4
whole | refused 24 3
weak | twin 3 4

2.R.acq.1.3 2.W.rel.1 1.W.rlx.1 1.W.rlx.1
location | order 3 2 4
whole | order 2 3 4 | order 3 2 4 | order 2 3 4
weak | order

2.U.rlx.1.4 2.R.acq.1.4 2.U.rlx.1.1 1.W.rlx.1
location | back 1 4
whole | refused 24 1
weak | order | weak 4 1 2 | order

2.W.rlx.2 2.W.rel.2 1.W.rlx.1 2.R.acq.2.1
location | round 2 2
whole | whole 2
weak | weak 1 2 4

2.W.rlx.2 2.W.rlx.2 2.R.acq.2.1 1.W.rlx.1
location | round 2 2
whole | whole 2
weak | weak 1 2 3

3.U.rlx.1.2 2.U.rlx.1.3 1.W.rlx.1 3.R.rlx.1.2
location | back 1 2
whole | refused 24 1
weak | order | weak 2 1 4 | order

3.W.rlx.7 1.U.rlx.7.4 1.R.rlx.7.4 2.U.rlx.7.1
location | back 2 4
whole | refused 24 2
weak | order | weak 4 2 3 | order

1.F.acqrel 1.R.rlx.1.5 1.W.rlx.2 2.R.rlx.2.3 2.W.rlx.1
location | causal 4
whole | causal 4
weak | causal 4

1.R.rlx.1.4 1.W.rlx.2 2.R.rlx.2.2 2.W.rlx.1 1.R.acq.1.4
location | causal 4
whole | causal 4
weak | causal 4

1.R.rlx.1.5 1.W.rlx.1 3.U.acqrel.1.5 4.W.rlx.1 2.W.rlx.1
location | order 4 5 3 2
whole | refused 24 3
weak | order

1.U.rlx.1.5 1.W.rlx.1 1.U.rel.1.1 2.W.rel.1 2.U.acqrel.1.4
location | round 1 2
whole | refused 24 1
weak | weak 1 2 3

1.U.rlx.1.5 1.W.rlx.1 2.W.rlx.1 3.W.rlx.1 4.W.rlx.1
location | order 3 4 5 1 2
whole | refused 24 1
weak | order

1.W.rel.1 1.R.rlx.1.4 1.W.rlx.1 1.W.rlx.1 1.R.rlx.1.3
location | causal *
whole | causal *
weak | causal *

1.W.rlx.1 1.U.rlx.1.1 3.R.rlx.1.2 3.W.rlx.1 1.U.rlx.1.1
location | twin 2 5
whole | refused 24 2
weak | twin 2 5

1.W.rlx.1 2.U.rlx.1.1 3.R.rlx.1.2 3.W.rlx.1 3.R.rlx.1.2
location | round 1 2
whole | refused 24 2
weak | order | weak 2 4 5 | order

1.W.rlx.2 2.U.acq.2.1 3.U.rlx.2.2 4.U.rlx.2.3 4.R.rlx.2.1
location | back * 1
whole | refused 24 2
weak | order | weak 1 * 5 | order

1.W.rlx.9 2.W.rlx.1 1.W.rlx.1 1.W.rlx.9 1.R.rlx.9.1
location | round 9 2
whole | whole *
weak | weak 1 4 5

2.U.rlx.1.3 2.U.rel.1.1 1.W.rlx.1 1.U.rlx.1.3 1.U.rlx.1.2
location | twin 1 4
whole | refused 24 1
weak | twin 1 4

2.W.rel.1 2.U.acqrel.1.1 1.U.rel.1.2 2.W.rel.1 2.U.rlx.1.3
location | round 1 2
whole | refused 24 2
weak | order

2.W.rlx.1 2.W.rlx.1 2.R.rlx.1.1 1.R.rlx.2.5 1.W.rlx.2
location | causal 2
whole | causal 2
weak | causal 2

3.R.rlx.1.2 1.W.rel.1 3.W.rel.1 4.W.rel.1 3.R.acq.1.2
location | round 1 2
whole | order 3 2 4 | whole * | order 3 2 4
weak | order | weak 2 3 5 | order

4.R.acq.1.3 3.W.rel.1 3.U.acqrel.1.2 3.R.rlx.1.3 2.U.acqrel.1.2
location | twin 3 5
whole | refused 24 3
weak | twin 3 5
";

// Six or seven.
const UP_TO_SEVEN: &str = "
1.R.acq.1.6 1.W.rel.2 2.R.acq.2.2 2.W.rel.3 3.R.acq.3.4 3.W.rel.1
location | causal 6
whole | causal 6
weak | causal 6

1.R.acq.1.6 1.W.rel.2 2.R.acq.2.2 2.W.rlx.3 3.R.acq.3.4 3.W.rel.1
location | causal 6
whole | causal 6
weak | causal 6

1.R.acq.2.6 1.F.acq 1.W.rlx.1 3.W.rlx.1 2.F.rel 2.W.rlx.2
location | order 3 4 6
whole | order 4 3 6 | order 4 3 6 | order 3 4 6
weak | order

1.R.rlx.1.4 1.W.rlx.2 2.R.rlx.2.5 2.W.rlx.1 3.U.rlx.2.2 4.U.rlx.2.2
location | causal 5
whole | refused 24 5
weak | causal 5

1.R.rlx.1.6 1.W.rel.2 2.R.acq.2.2 2.W.rel.3 3.R.acq.3.4 3.W.rel.1
location | causal 6
whole | causal 6
weak | causal 6

1.R.rlx.2.6 1.F.acq 1.W.rel.1 3.W.rlx.1 2.F.rel 2.W.rlx.2
location | order 3 4 6
whole | order 4 3 6 | order 4 3 6 | order 3 4 6
weak | order

1.R.rlx.2.6 1.F.acq 1.W.rlx.1 3.W.rlx.1 2.F.rel 2.W.rlx.2
location | order 3 4 6
whole | order 4 3 6 | order 4 3 6 | order 3 4 6
weak | order

1.U.acq.1.2 3.W.rlx.1 2.U.rlx.1.1 3.W.rlx.1 1.R.rlx.1.2 3.R.acq.1.2
location | back 1 2
whole | refused 24 1
weak | weak 2 4 6 | weak 2 * * | weak 2 4 6

1.W.rel.1 1.W.rlx.1 2.U.rlx.1.2 1.F.rlx 3.R.acq.1.3 3.U.acq.1.1
location | round 1 2
whole | refused 24 3
weak | order | weak 1 * 6 | order

1.W.rel.1 1.W.rlx.1 2.U.rlx.1.2 2.U.rlx.1.3 1.U.rlx.1.4 1.R.rlx.1.2
location | back * 2
whole | refused 24 3
weak | weak 2 5 6 | weak 2 * 6 | weak 2 5 6

1.W.rlx.1 1.R.acq.2.4 1.W.rlx.1 1.W.rel.2 2.R.rlx.2.4 2.R.rlx.1.1
location | causal *
whole | causal *
weak | causal *

1.W.rlx.1 1.W.rlx.1 1.W.rel.2 2.R.acq.2.3 2.W.rel.1 2.U.rlx.1.1
location | round 1 * | round 1 * | order 5 1 6 2 3
whole | refused 24 6
weak | weak 1 * 6 | weak 1 * 6 | order

1.W.rlx.1 1.W.rlx.1 1.W.rlx.2 1.R.acq.1.2 2.R.acq.2.3 2.R.rlx.1.1
location | order 1 2 3 | round 1 2 | order 1 2 3
whole | order 1 2 3 | whole 2 | order 1 2 3
weak | order | weak 1 2 6 | order

1.W.rlx.1 2.U.rlx.1.1 2.U.acqrel.1.5 3.U.rlx.1.2 4.U.rlx.1.4 4.R.rlx.1.2
location | back * 2
whole | refused 24 2
weak | order | weak 2 * 6 | order

1.W.rlx.1 2.W.rlx.2 1.W.rlx.2 2.W.rlx.1 1.R.rlx.2.2 2.R.rlx.1.1
location | order 4 1 3 2
whole | whole 4
weak | order

3.R.acq.1.3 1.W.rel.1 1.U.acq.1.2 2.R.acq.1.3 3.W.rel.1 3.R.rlx.1.2
location | back 3 2
whole | refused 24 3
weak | weak 2 5 6 | weak 2 * 6 | order

4.W.rel.1 1.W.rel.1 2.U.rlx.1.1 3.U.acqrel.2.5 2.W.rel.2 3.R.rlx.1.1
location | back 3 1 | back 3 1 | order 1 3 2 5 4
whole | refused 24 3
weak | order | weak 1 3 6 | order

4.W.rlx.1 4.U.acqrel.1.1 3.U.acqrel.1.2 2.U.acqrel.1.3 1.R.rlx.1.4 1.R.acq.1.2
location | back 4 2 | back * 2 | back 4 2
whole | refused 24 2
weak | order | weak 2 * 6 | order

1.W.rlx.1 1.F.acqrel 1.W.rlx.2 2.R.acq.2.3 4.W.rlx.2 2.W.rel.1 2.R.rlx.1.1
location | round 1 2 | round 1 2 | order 6 1 3 5
whole | whole * | whole * | order 6 1 5 3
weak | weak 1 6 7 | weak 1 6 7 | order

1.W.rlx.1 1.W.rel.1 1.W.rlx.1 1.W.rel.2 1.R.rlx.1.7 2.R.acq.2.4 2.U.rlx.1.1
location | round 1 *
whole | refused 24 7
weak | weak 1 * 7 | weak 1 * 7 | order

1.W.rlx.1 1.W.rlx.1 1.W.rel.2 2.U.rel.2.7 2.F.acqrel 2.U.rlx.1.1 3.U.rlx.2.3
location | round 1 2 | round 1 2 | order 1 6 2 3 7 4
whole | refused 24 4
weak | weak 1 2 6 | weak 1 2 6 | order

1.W.rlx.1 2.W.rlx.2 1.W.rlx.2 2.W.rlx.1 4.W.rel.1 1.R.rlx.2.2 2.R.rlx.1.1
location | order 4 1 5 3 2
whole | whole 4
weak | order
";

// Eight or nine.
const UP_TO_NINE: &str = "
1.W.rel.2 1.W.rel.1 1.W.rel.2 1.R.acq.2.5 2.W.rel.2 4.W.rel.1 2.W.rel.1 2.R.rlx.1.2
location | order 6 7 2 1 3 5
whole | whole 4
weak | order

1.W.rlx.1 1.W.rlx.1 1.W.rel.2 2.U.rel.2.7 2.F.acqrel 2.U.rlx.1.1 3.U.rlx.2.3 1.U.acq.1.2
location | round 1 2 | round 1 2 | order 1 6 2 8 3 7 4
whole | refused 24 4
weak | weak 1 2 6 | weak 1 2 6 | order

3.R.rlx.2.7 1.W.rlx.1 1.F.rel 1.W.rlx.2 2.W.rlx.1 3.R.rlx.1.5 1.W.rlx.2 3.R.rlx.1.2
location | order 5 2 4 7 | round 1 2 | order 5 2 4 7
whole | order 5 2 4 7 | whole 2 | order 5 2 4 7
weak | order

1.W.rlx.1 2.W.rlx.1 3.W.rlx.1 4.R.rlx.1.1 4.R.rlx.1.2 5.R.acq.1.2 5.R.rlx.1.3 6.R.rlx.1.3 6.R.rlx.1.1
location | round 1 3
whole | whole 3
weak | order

1.W.rlx.1 2.W.rlx.1 3.W.rlx.1 4.R.rlx.1.1 4.R.rlx.1.2 5.R.rlx.1.2 5.R.rlx.1.3 6.R.rlx.1.3 6.R.acq.1.1
location | round 1 3
whole | whole 3
weak | order

1.W.rlx.1 2.W.rlx.1 3.W.rlx.1 4.R.rlx.1.1 4.R.rlx.1.2 5.R.rlx.1.2 5.R.rlx.1.3 6.R.rlx.1.3 6.R.rlx.1.1
location | round 1 3
whole | whole 3
weak | order
";

// Ten and more, of which most are consistent, in orders far from their numbers.
const MORE: &str = "
3.W.rel.2 3.R.acq.2.1 3.W.rlx.2 2.W.rlx.2 2.U.rlx.1.9 2.U.rlx.2.1 4.W.rel.2 4.U.rlx.2.4 1.W.rel.1 1.R.rlx.2.6
location | order 9 5 7 4 8 1 6 3
whole | refused 24 5
weak | order

5.W.rlx.1 5.R.rlx.2.8 5.U.rel.2.8 4.W.rel.1 4.W.rel.2 4.R.acq.1.1 2.F.acqrel 2.U.rlx.2.12 2.R.acq.2.5 1.F.rel 1.W.rlx.2 3.W.rlx.2 3.R.rlx.1.4
location | order 4 1 11 12 8 3 5
whole | refused 24 3
weak | order

5.W.rel.2 5.W.rel.1 5.F.acqrel 5.U.rlx.2.5 2.U.acqrel.2.9 2.W.rel.2 2.R.acq.1.12 2.R.rlx.1.2 3.W.rlx.2 3.F.rlx 3.U.rlx.1.14 4.W.rlx.1 4.F.rlx 4.U.rlx.1.12
location | order 12 14 11 2 1 9 5 4 6
whole | refused 24 4
weak | order

5.U.rlx.1.5 2.W.rlx.2 2.W.rlx.2 3.W.rlx.2 1.W.rlx.1 1.W.rel.2 1.W.rel.2 1.U.rel.2.2 3.R.acq.2.4 3.R.rlx.2.4
location | order 5 1 4 6 7 2 8 3
whole | refused 24 1
weak | order

4.F.rlx 4.U.acqrel.2.9 2.U.rlx.2.8 5.W.rel.2 2.R.rlx.1.7 2.U.acqrel.2.3 1.W.rlx.1 1.W.rlx.2 1.W.rlx.2 2.W.rel.1
location | order 7 10 4 8 3 6 9 2
whole | refused 24 2
weak | order

2.W.rel.3 2.W.rel.3 2.U.rlx.2.12 3.U.acq.3.9 3.U.acqrel.1.10 3.U.acqrel.3.4 3.R.rlx.3.2 3.U.acqrel.2.3 1.W.rlx.3 1.W.rlx.1 1.F.rlx 1.W.rlx.2
location | order 10 5 12 3 8 1 9 4 6 2
whole | refused 24 3
weak | order

1.W.rlx.1 1.W.rel.1 3.W.rlx.1 3.R.acq.1.6 3.R.rlx.1.6 2.W.rlx.1 2.F.rlx 2.R.acq.1.6 2.W.rel.1 2.W.rlx.1 2.R.rlx.1.1
location | order 3 6 9 10 1 2
whole | order 3 6 9 10 1 2
weak | order

3.R.acq.1.3 3.W.rlx.1 2.W.rel.1 2.F.rlx 2.R.rlx.1.3 2.W.rel.1 2.W.rel.1 4.R.rlx.1.3 4.W.rlx.1 5.F.acqrel 5.W.rel.1 5.R.acq.1.3
location | order 11 3 2 6 7 9
whole | order 9 11 3 2 6 7 | order 11 3 2 6 7 9 | order 2 9 11 3 6 7
weak | order

4.W.rlx.1 1.W.rel.1 1.W.rel.1 2.W.rel.1 2.R.rlx.1.1 2.R.acq.1.2 3.W.rlx.1 3.R.acq.1.7 3.R.acq.1.4 3.W.rlx.1
location | order 7 4 1 2 3 10
whole | order 7 4 1 2 3 10
weak | order

3.W.rel.2 3.R.rlx.1.10 3.R.rlx.2.1 3.W.rlx.2 3.W.rel.1 3.W.rel.2 3.W.rlx.1 1.W.rel.2 1.F.rlx 1.W.rlx.1 2.W.rel.2 2.W.rlx.1 2.R.rlx.1.10 2.F.acqrel
location | order 12 10 5 7 1 4 6 8 11 | order 12 10 5 7 8 1 4 6 11 | order 12 10 5 7 1 4 6 8 11
whole | order 5 7 12 10 1 4 6 8 11 | order 12 10 5 7 8 1 11 4 6 | order 5 7 12 10 1 4 6 8 11
weak | order

4.W.rlx.1 3.W.rlx.3 4.W.rlx.3 1.W.rlx.3 3.W.rel.2 4.W.rel.3 4.R.rlx.2.5 1.R.acq.3.2 3.R.rlx.3.2 1.R.rlx.1.1 3.W.rel.3 3.R.acq.2.5 3.W.rel.3 3.R.acq.3.3
location | order 1 5 4 2 11 13 3 6
whole | order 1 5 4 2 11 13 3 6
weak | order

3.W.rlx.1 3.U.rlx.1.1 3.R.acq.2.7 3.W.rlx.2 1.U.rlx.1.8 1.U.acqrel.1.5 4.W.rel.2 4.W.rlx.1 4.U.rlx.2.7 4.W.rel.3 4.W.rlx.2 4.R.acq.1.2
location | order 8 5 6 1 2 7 9 4 11 10
whole | refused 24 2
weak | order

2.U.acqrel.1.10 2.R.acq.2.11 2.W.rel.1 2.R.acq.2.6 5.R.acq.2.11 5.U.acq.2.11 4.W.rlx.1 4.U.acqrel.1.3 4.W.rlx.2 1.W.rlx.1 1.W.rlx.2 1.W.rel.2
location | order 7 10 1 3 8 11 6 9 12 | order 7 10 1 3 8 11 6 9 12 | order 7 10 1 3 8 9 11 6 12
whole | refused 24 1
weak | order

3.R.acq.1.7 3.W.rlx.1 3.W.rlx.1 2.U.acqrel.1.7 4.W.rlx.1 4.R.rlx.1.5 5.W.rlx.1 5.R.acq.1.7 5.R.rlx.1.7 5.R.rlx.1.4
location | order 5 7 4 2 3
whole | refused 24 4
weak | order

2.R.acq.1.6 2.R.acq.1.12 2.F.acqrel 2.U.rlx.1.7 2.W.rlx.1 5.W.rlx.1 5.W.rlx.1 1.R.acq.1.6 3.R.acq.1.6 3.W.rel.1 3.R.acq.1.10 4.U.acq.1.6
location | order 6 12 7 4 5 10
whole | refused 24 4
weak | order

4.W.rlx.1 5.R.acq.1.1 5.W.rlx.1 1.W.rlx.1 3.U.rlx.1.1 3.R.acq.1.5 5.W.rel.1 2.F.acqrel 1.U.acqrel.1.4 5.F.acqrel 1.R.acq.1.5 3.R.rlx.1.7
location | order 4 9 1 5 3 7
whole | refused 24 5
weak | order

4.F.rlx 4.U.rlx.1.9 4.W.rel.1 2.W.rel.1 2.W.rlx.1 2.R.rlx.1.9 1.F.rlx 1.U.rel.1.3 3.W.rlx.1 3.F.rlx 3.F.acq
location | order 4 5 9 2 3 8
whole | refused 24 2
weak | order

5.W.rlx.2 4.W.rel.1 2.W.rel.2 2.R.acq.2.1 2.W.rel.1 1.W.rlx.1 3.R.rlx.2.3 3.W.rlx.2 3.W.rel.1 3.R.rlx.1.2 4.W.rlx.2 1.R.rlx.1.5 4.R.rlx.2.3
location | order 6 5 9 2 11 3 1 8
whole | order 6 9 2 5 8 11 3 1 | whole * | order 6 9 2 5 8 11 3 1
weak | order

3.W.rel.1 3.W.rel.2 3.R.acq.1.11 3.W.rel.1 3.R.acq.1.4 3.W.rel.1 4.W.rlx.1 4.R.acq.1.4 1.W.rlx.1 1.R.acq.1.1 1.W.rlx.1 2.W.rel.2
location | order 7 9 1 11 4 6 2 12
whole | order 7 9 1 11 4 6 2 12
weak | order

1.W.rlx.1 2.F.rlx 3.W.rel.1 3.W.rel.1 2.W.rlx.1 2.F.rlx 2.R.rlx.1.3 1.W.rlx.1 1.W.rlx.1 1.R.acq.1.5
location | order 1 8 9 5 3 4
whole | order 1 8 9 5 3 4
weak | order

1.R.rlx.2.7 1.W.rlx.2 3.W.rel.1 3.W.rel.2 3.W.rlx.2 3.W.rlx.1 2.W.rlx.2 2.W.rel.1 2.R.rlx.2.7 2.W.rlx.1 2.R.acq.1.3
location | order 8 10 3 6 4 5 7 2
whole | order 8 10 3 6 2 7 4 5 | order 8 10 3 6 7 2 4 5 | order 8 10 3 6 2 7 4 5
weak | order

3.W.rel.2 3.W.rlx.2 1.R.acq.2.9 5.R.acq.2.9 5.R.acq.1.10 2.W.rlx.1 2.F.acq 2.W.rel.1 4.W.rlx.2 4.W.rlx.1 4.W.rel.2 4.W.rel.2 4.R.acq.2.1
location | order 6 8 10 9 11 12 1 2
whole | order 6 8 10 9 11 12 1 2
weak | order
";

#[test]
fn up_to_five(rt: HostRuntime) -> Result<(), Fail> {
    check_groups(&rt, rt.alloc(), UP_TO_FIVE)
}

#[test]
fn up_to_seven(rt: HostRuntime) -> Result<(), Fail> {
    check_groups(&rt, rt.alloc(), UP_TO_SEVEN)
}

#[test]
fn up_to_nine(rt: HostRuntime) -> Result<(), Fail> {
    check_groups(&rt, rt.alloc(), UP_TO_NINE)
}

#[test]
fn more(rt: HostRuntime) -> Result<(), Fail> {
    check_groups(&rt, rt.alloc(), MORE)
}
