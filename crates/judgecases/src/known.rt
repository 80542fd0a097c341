// Runs that are known, each under a name.
use crate::rows::check_groups;
use std::test::Fail;

// The runs of docs/MODELS.md.
pub(crate) const MODELS: &str = "
no events:
location | order
whole | order
weak | order

a store between an update and its writer: 1.W.rlx.1 2.U.rlx.1.1 3.W.rlx.1 3.R.rlx.1.2
location | order 3 1 2
whole | refused 24 2
weak | order

handing over: 1.W.rlx.1 1.W.rlx.1 1.W.rel.2 2.R.acq.2.3 2.R.rlx.1.1
location | round 1 2 | round 1 2 | order 1 2 3
whole | whole 2 | whole 2 | order 1 2 3
weak | weak 1 2 5 | weak 1 2 5 | order

not acquired: 1.W.rlx.1 1.W.rlx.1 1.W.rel.2 2.R.rlx.2.3 2.R.rlx.1.1
location | order 1 2 3 | round 1 2 | order 1 2 3
whole | order 1 2 3 | whole 2 | order 1 2 3
weak | order | weak 1 2 5 | order

by fences: 1.W.rlx.1 1.W.rlx.1 1.F.rel 1.W.rlx.2 2.R.rlx.2.4 2.F.acq 2.R.rlx.1.1
location | round 1 2 | round 1 2 | order 1 2 4
whole | whole 2 | whole 2 | order 1 2 4
weak | weak 1 2 7 | weak 1 2 7 | order

its release relaxed: 1.W.rlx.1 1.W.rlx.1 1.F.rlx 1.W.rlx.2 2.R.rlx.2.4 2.F.acq 2.R.rlx.1.1
location | order 1 2 4 | round 1 2 | order 1 2 4
whole | order 1 2 4 | whole 2 | order 1 2 4
weak | order | weak 1 2 7 | order

its acquire relaxed: 1.W.rlx.1 1.W.rlx.1 1.F.rel 1.W.rlx.2 2.R.rlx.2.4 2.F.rlx 2.R.rlx.1.1
location | order 1 2 4 | round 1 2 | order 1 2 4
whole | order 1 2 4 | whole 2 | order 1 2 4
weak | order | weak 1 2 7 | order

two writes each way: 1.W.rel.1 1.W.rel.2 1.R.acq.2.4 2.W.rel.2 2.W.rel.1 2.R.acq.1.1
location | order 5 1 2 4
whole | whole 4
weak | order

a cycle of program order and reads-from: 1.R.rlx.1.4 1.W.rlx.2 2.R.rlx.2.2 2.W.rlx.1
location | causal 4
whole | causal 4
weak | causal 4

an update before its writer: 2.W.rlx.1 1.U.rlx.1.1
location | order 1 2
whole | refused 24 2
weak | order
";

// Against causality, which is looked at first.
pub(crate) const CYCLES: &str = "
one thread: 1.R.rlx.1.2 1.W.rlx.1
location | causal 2
whole | causal 2
weak | causal 2

three threads: 1.R.acq.1.6 1.W.rel.2 2.R.acq.2.2 2.W.rel.3 3.R.acq.3.4 3.W.rel.1
location | causal 6
whole | causal 6
weak | causal 6

two updates in a ring: 1.U.rlx.1.2 2.U.rlx.1.1
location | causal 2
whole | refused 24 1
weak | causal 2

three updates in a ring: 1.U.rel.1.3 2.U.rlx.1.1 3.U.acq.1.2
location | causal 3
whole | refused 24 1
weak | causal 3

read from a ring: 1.U.rel.1.3 2.U.rlx.1.1 3.U.acq.1.2 1.R.acq.1.2
location | causal 3
whole | refused 24 1
weak | causal 3

through an update: 1.U.rlx.1.4 1.W.rlx.2 2.R.rlx.2.2 2.W.rlx.1
location | causal 4
whole | refused 24 1
weak | causal 4

beside twins: 1.R.rlx.1.4 1.W.rlx.2 2.R.rlx.2.2 2.W.rlx.1 3.U.rlx.2.2 4.U.rlx.2.2
location | causal 4
whole | refused 24 5
weak | causal 4

twins that read too early: 1.U.rlx.1.3 1.U.rlx.1.3 1.W.rlx.1
location | causal *
whole | refused 24 1
weak | causal *

beside a round: 2.W.rlx.1 2.W.rlx.1 2.R.rlx.1.1 1.R.rlx.2.5 1.W.rlx.2
location | causal 2
whole | causal 2
weak | causal 2
";

// Two updates of one writer; and what looks like them.
pub(crate) const TWINS: &str = "
twins: 1.W.rlx.1 2.U.rlx.1.1 3.U.rlx.1.1
location | twin 2 3
whole | refused 24 2
weak | twin 2 3

before their writer: 1.U.rlx.1.3 2.U.rlx.1.3 3.W.rlx.1
location | twin 1 2
whole | refused 24 1
weak | twin 1 2

three of one writer: 1.W.rlx.1 2.U.rlx.1.1 3.U.rlx.1.1 4.U.rlx.1.1
location | twin * *
whole | refused 24 2
weak | twin * *

of one thread: 1.W.rlx.1 2.U.rlx.1.1 2.U.rlx.1.1
location | twin 2 3
whole | refused 24 2
weak | twin 2 3

of an update: 1.W.rlx.1 2.U.rlx.1.1 3.U.rlx.1.2 4.U.rlx.1.2
location | twin 3 4
whole | refused 24 2
weak | twin 3 4

far apart: 1.W.rel.2 2.U.rlx.2.1 1.W.rel.1 2.R.acq.1.3 4.F.acqrel 3.U.acqrel.2.1
location | twin 2 6
whole | refused 24 2
weak | twin 2 6

an update and a read: 1.W.rlx.1 2.U.rlx.1.1 3.R.rlx.1.1
location | order 1 2
whole | refused 24 2
weak | order

two updates of two writers: 1.W.rlx.1 2.U.rlx.1.1 3.U.rlx.1.4 4.W.rlx.1
location | order 1 2 4 3
whole | refused 24 2
weak | order

and a step back: 1.W.rlx.1 2.U.rlx.1.1 2.R.rlx.1.1 3.U.rlx.1.1
location | twin 2 4
whole | refused 24 2
weak | twin 2 4

and a round: 1.W.rlx.1 1.W.rlx.1 1.R.rlx.1.1 2.W.rlx.2 3.U.rlx.2.4 4.U.rlx.2.4
location | twin 5 6
whole | refused 24 5
weak | twin 5 6
";

// A step back in a chain, which goes before every round. At weak scope there are no chains.
pub(crate) const BACKS: &str = "
back: 1.W.rlx.1 2.U.rlx.1.1 2.R.rlx.1.1
location | back 2 1
whole | refused 24 2
weak | order | weak 1 2 3 | order

over two updates: 1.W.rlx.1 2.U.rlx.1.1 3.U.rlx.1.2 3.R.rlx.1.1
location | back * 1
whole | refused 24 2
weak | order | weak 1 * 4 | order

to the middle: 1.W.rlx.1 2.U.rlx.1.1 3.U.rlx.1.2 4.U.rlx.1.3 4.R.rlx.1.2
location | back * 2
whole | refused 24 2
weak | order | weak 2 * 5 | order

seen by a reader: 1.W.rlx.1 2.U.rlx.1.1 3.R.rlx.1.2 3.R.rlx.1.1
location | back 2 1
whole | refused 24 2
weak | order | weak 1 2 4 | order

handed over: 1.W.rlx.1 2.U.rlx.1.1 2.W.rel.2 3.R.acq.2.3 3.R.rlx.1.1
location | back 2 1 | back 2 1 | order 1 2 3
whole | refused 24 2
weak | order | weak 1 2 5 | order

head after its update: 2.U.rlx.1.3 2.R.rlx.1.3 1.W.rlx.1
location | back 1 3
whole | refused 24 1
weak | order | weak 3 1 2 | order

by an update in the chain: 1.W.rlx.1 2.U.rlx.1.1 2.U.rlx.1.2 1.U.rlx.1.3 1.R.rlx.1.2
location | back * 2
whole | refused 24 2
weak | order | weak 2 * 5 | order

before a round: 3.W.rlx.2 2.U.rlx.2.1 2.R.rlx.2.1 1.W.rlx.1 1.W.rlx.1 1.R.rlx.1.4
location | back 2 1
whole | refused 24 2
weak | weak 4 5 6 | weak * * * | weak 4 5 6

after a round: 3.W.rlx.1 3.W.rlx.1 3.R.rlx.1.1 1.W.rlx.2 2.U.rlx.2.4 2.R.rlx.2.4
location | back 5 4
whole | refused 24 5
weak | weak 1 2 3 | weak * * * | weak 1 2 3
";

// Steps through different chains in a cycle.
pub(crate) const ROUNDS: &str = "
read from the first: 1.W.rlx.1 1.W.rlx.1 1.R.rlx.1.1
location | round 1 2
whole | whole 2
weak | weak 1 2 3

two readers: 1.W.rlx.1 2.W.rlx.1 3.R.rlx.1.1 3.R.rlx.1.2 4.R.rlx.1.2 4.R.rlx.1.1
location | round 1 2
whole | whole 2
weak | order

three readers: 1.W.rlx.1 2.W.rlx.1 3.W.rlx.1 4.R.rlx.1.1 4.R.rlx.1.2 5.R.rlx.1.2 5.R.rlx.1.3 6.R.rlx.1.3 6.R.rlx.1.1
location | round 1 3
whole | whole 3
weak | order

four readers: 1.W.rlx.5 2.W.rlx.5 3.W.rlx.5 4.W.rlx.5 5.R.rlx.5.1 5.R.rlx.5.2 6.R.rlx.5.2 6.R.rlx.5.3 7.R.rlx.5.3 7.R.rlx.5.4 8.R.rlx.5.4 8.R.rlx.5.1
location | round 5 4
whole | whole 4
weak | order

an update round a write: 1.W.rlx.1 1.W.rlx.1 1.U.rlx.1.1
location | round 1 2
whole | refused 24 3
weak | weak 1 2 3

overwritten by the last event: 1.R.acq.1.4 1.R.rlx.1.3 2.W.rlx.1 2.W.rel.1
location | round 1 2
whole | whole 2
weak | weak 3 4 2 | weak 3 4 2 | order

through two places of a chain: 1.W.rlx.1 2.U.rlx.1.1 3.W.rlx.1 4.R.rlx.1.3 4.R.rlx.1.1 5.R.rlx.1.2 5.R.rlx.1.3
location | round 1 2
whole | refused 24 2
weak | order

from the end of each chain to the head of the other: 1.W.rlx.1 2.U.rlx.1.1 5.R.rlx.1.2 5.R.rlx.1.5 3.W.rlx.1 4.U.rlx.1.5 6.R.rlx.1.6 6.R.rlx.1.1
location | round 1 2
whole | refused 24 2
weak | order

through three chains: 1.W.rlx.1 2.U.rlx.1.1 3.W.rlx.1 4.U.rlx.1.3 5.W.rlx.1 6.R.rlx.1.2 6.R.rlx.1.3 7.R.rlx.1.4 7.R.rlx.1.5 8.R.rlx.1.5 8.R.rlx.1.1
location | round 1 3
whole | refused 24 2
weak | order

at two locations: 1.W.rlx.1 1.W.rlx.1 1.R.rlx.1.1 2.W.rlx.2 2.W.rlx.2 2.R.rlx.2.4
location | round * 2
whole | whole 2
weak | weak * * *

at the second: 1.W.rlx.1 2.W.rlx.1 1.W.rlx.9 1.W.rlx.9 1.R.rlx.9.3
location | round 9 2
whole | whole 2
weak | weak 3 4 5
";

// What whole scope alone forbids, and how it lays all events.
pub(crate) const WHOLES: &str = "
fences and reads are laid too: 1.R.rlx.2.6 1.F.acq 1.W.rlx.1 3.W.rlx.1 2.F.rel 2.W.rlx.2
location | order 3 4 6
whole | order 4 3 6 | order 4 3 6 | order 3 4 6
weak | order

three in a ring: 1.W.rlx.1 1.W.rlx.2 2.W.rlx.2 2.W.rlx.3 3.W.rlx.3 3.W.rlx.1
location | order 1 6 2 3 4 5
whole | order 1 6 2 3 4 5
weak | order

independent reads: 1.W.rlx.1 1.W.rlx.2 2.W.rel.1 3.W.rel.2 4.R.acq.1.3 4.R.acq.2.2 5.R.acq.2.4 5.R.acq.1.1
location | order 1 3 2 4
whole | order 1 3 2 4
weak | order

a write and a read each: 1.W.rlx.1 2.W.rlx.2 1.W.rlx.2 2.W.rlx.1 1.R.rlx.2.2 2.R.rlx.1.1
location | order 4 1 3 2
whole | whole 4
weak | order

no updates: 1.W.rlx.1 1.W.rlx.2 2.R.rlx.2.2 2.W.rlx.1 3.R.rlx.1.4 3.R.rlx.1.1
location | order 4 1 2 | round 1 2 | order 4 1 2
whole | order 4 1 2 | whole * | order 4 1 2
weak | order | weak 1 4 6 | order

known to the first event alone: 1.R.acq.1.3 2.R.rlx.1.4 2.W.rel.1 3.W.rlx.1
location | order 4 3
whole | order 4 3 | order 4 3 | order 3 4
weak | order

many updates: 3.W.rlx.7 1.U.rlx.7.3 2.U.rlx.7.1
location | order 1 3 2
whole | refused 24 2
weak | order
";

// Which order is laid.
pub(crate) const ORDERS: &str = "
by number: 1.W.rlx.1 2.W.rlx.1 3.W.rlx.1
location | order 1 2 3
whole | order 1 2 3
weak | order

by location: 1.W.rlx.9 2.W.rlx.64 3.W.rlx.1 4.W.rlx.9
location | order 3 1 4 2
whole | order 3 1 4 2
weak | order

against their numbers: 1.W.rlx.1 2.R.rlx.1.4 2.R.rlx.1.1 3.W.rlx.1
location | order 4 1
whole | order 4 1
weak | order

lowest first again: 1.W.rlx.1 2.W.rlx.1 3.W.rlx.1 4.R.rlx.1.2 4.R.rlx.1.1
location | order 2 1 3
whole | order 2 1 3
weak | order

head above its update: 1.U.rlx.1.4 2.W.rlx.1 3.W.rlx.1 4.W.rlx.1
location | order 2 3 4 1
whole | refused 24 1
weak | order

chains by their heads: 1.U.rlx.1.5 2.U.rlx.1.1 3.W.rlx.1 4.U.rlx.1.3 5.W.rlx.1
location | order 3 4 5 1 2
whole | refused 24 1
weak | order

a chain back home: 1.W.rel.1 2.U.rlx.1.1 3.U.rlx.1.2 1.U.acq.1.3
location | order 1 2 3 4
whole | refused 24 2
weak | order

between its updates: 1.W.rlx.1 2.U.rlx.1.1 3.W.rlx.1 4.U.rlx.1.2 4.R.rlx.1.3
location | order 1 2 4 3
whole | refused 24 2
weak | order

chains that wait: 1.W.rlx.2 2.U.rlx.2.1 3.W.rlx.2 4.U.rlx.2.3 4.R.rlx.2.1 5.W.rlx.1
location | order 6 3 4 1 2
whole | refused 24 2
weak | order
";

// What synchronises by each rule, seen by a read of what is overwritten.
pub(crate) const RULES: &str = "
through updates: 1.W.rlx.1 1.W.rlx.1 1.W.rel.2 3.U.rlx.2.3 2.R.acq.2.4 2.R.rlx.1.1
location | round 1 2 | round 1 2 | order 1 2 3 4
whole | refused 24 4
weak | weak 1 2 6 | weak 1 2 6 | order

not through a write: 1.W.rlx.1 1.W.rlx.1 1.W.rel.2 1.W.rlx.2 2.R.acq.2.4 2.R.rlx.1.1
location | order 1 2 3 4 | round 1 2 | order 1 2 3 4
whole | order 1 2 3 4 | whole 2 | order 1 2 3 4
weak | order | weak 1 2 6 | order

fence to read: 1.W.rlx.1 1.W.rlx.1 1.F.rel 1.W.rlx.2 2.R.acq.2.4 2.R.rlx.1.1
location | round 1 2 | round 1 2 | order 1 2 4
whole | whole 2 | whole 2 | order 1 2 4
weak | weak 1 2 6 | weak 1 2 6 | order

write to fence: 1.W.rlx.1 1.W.rlx.1 1.W.rel.2 2.R.rlx.2.3 2.F.acq 2.R.rlx.1.1
location | round 1 2 | round 1 2 | order 1 2 3
whole | whole 2 | whole 2 | order 1 2 3
weak | weak 1 2 6 | weak 1 2 6 | order

fences exchanged: 1.W.rlx.1 1.W.rlx.1 1.F.acq 1.W.rlx.2 2.R.rlx.2.4 2.F.rel 2.R.rlx.1.1
location | order 1 2 4 | round 1 2 | order 1 2 4
whole | order 1 2 4 | whole 2 | order 1 2 4
weak | order | weak 1 2 7 | order

overwritten by an update: 1.W.rlx.1 2.U.rlx.1.1 2.W.rel.2 3.R.acq.2.3 3.U.rlx.1.2 3.R.rlx.1.1
location | back * 1
whole | refused 24 2
weak | order | weak 1 * 6 | order
";

#[test]
fn models(rt: HostRuntime) -> Result<(), Fail> {
    check_groups(&rt, rt.alloc(), MODELS)
}

#[test]
fn cycles(rt: HostRuntime) -> Result<(), Fail> {
    check_groups(&rt, rt.alloc(), CYCLES)
}

#[test]
fn twins(rt: HostRuntime) -> Result<(), Fail> {
    check_groups(&rt, rt.alloc(), TWINS)
}

#[test]
fn backs(rt: HostRuntime) -> Result<(), Fail> {
    check_groups(&rt, rt.alloc(), BACKS)
}

#[test]
fn rounds(rt: HostRuntime) -> Result<(), Fail> {
    check_groups(&rt, rt.alloc(), ROUNDS)
}

#[test]
fn wholes(rt: HostRuntime) -> Result<(), Fail> {
    check_groups(&rt, rt.alloc(), WHOLES)
}

#[test]
fn orders(rt: HostRuntime) -> Result<(), Fail> {
    check_groups(&rt, rt.alloc(), ORDERS)
}

#[test]
fn rules(rt: HostRuntime) -> Result<(), Fail> {
    check_groups(&rt, rt.alloc(), RULES)
}
