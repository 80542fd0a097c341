//! The logs of the example runs, with their verdicts in the contract.
ghost use Rattle.examples.specs.Examples.{Examples};

use runlog::sample::two_plus_two_writes;

/// The bytes of the log of each example. `T1 W rel L2` is a write of thread 1 in mode release at location 2.
#[derive(Drop)]
pub struct ExampleLogs {
    /// The run without events.
    pub no_events: [u8; 6],
    /// Two threads write two locations in opposite order, and each then reads, where it wrote last, what the other wrote there:
    ///
    ///     1  T1 W rel L1          4  T2 W rel L2
    ///     2  T1 W rel L2          5  T2 W rel L1
    ///     3  T1 R acq L2 from 4   6  T2 R acq L1 from 1
    pub two_writes_each_way: [u8; 66],
    /// A flag is set after two writes, and what sees the flag still reads the first of them:
    ///
    ///     1  T1 W rlx L1          4  T2 R acq L2 from 3
    ///     2  T1 W rlx L1          5  T2 R rlx L1 from 1
    ///     3  T1 W rel L2
    pub handing_over: [u8; 56],
    /// The same, but that event 4 reads in mode relaxed.
    pub handing_over_relaxed: [u8; 56],
    /// Two updates read from one write:
    ///
    ///     1  T1 W rlx L1   2  T2 U rlx L1 from 1   3  T3 U rlx L1 from 1
    pub twin: [u8; 36],
    /// A thread updates a write, and then reads from that write:
    ///
    ///     1  T1 W rlx L1   2  T2 U rlx L1 from 1
    ///                      3  T2 R rlx L1 from 1
    pub back: [u8; 36],
    /// Each of two threads reads what the other writes after its read:
    ///
    ///     1  T1 R rlx L1 from 4   3  T2 R rlx L2 from 2
    ///     2  T1 W rlx L2          4  T2 W rlx L1
    pub load_buffering: [u8; 46],
    /// A thread writes, and then reads what an update made of another write:
    ///
    ///     1  T1 W rlx L1   2  T2 U rlx L1 from 1   3  T3 W rlx L1
    ///                                              4  T3 R rlx L1 from 2
    pub update_in_between: [u8; 46],
    /// Two threads write one location, one of them after it reads what a third thread writes at another:
    ///
    ///     1  T1 R rlx L1 from 4   3  T2 W rlx L2   4  T3 W rlx L1
    ///     2  T1 W rlx L2
    pub orders_that_differ: [u8; 46],
}

/// The logs of the examples. The contract says for each which full run it spells, the outcome of that run under each of the
/// five models, and the characters that are printed of it: an order, a violation and its steps, or the update for which it is
/// refused. The definitions force this, whatever any code answers, and of each violation that there is no other of its kind. The
/// contract has two theorems besides: outcomes that are forced of one run agree in the order, in the kind of the violation, or in
/// that update; and so does a judge's answer with an outcome that is forced. Where no other violation is of that kind, they agree
/// in the violation.
pub fn examples() -> ExampleLogs
    ensures { Examples result }
{
    ExampleLogs {
        no_events: *b"\
            \x04\x00\x02\x00\x00\x00",
        two_writes_each_way: two_plus_two_writes(),
        handing_over: *b"\
            \x08\x00\x01\x00\x01\x02\x00\x01\x00\x00\
            \x08\x00\x01\x00\x01\x02\x00\x01\x00\x00\
            \x08\x00\x01\x00\x01\x02\x02\x02\x00\x00\
            \x08\x00\x01\x00\x02\x01\x01\x02\x03\x00\
            \x08\x00\x01\x00\x02\x01\x00\x01\x01\x00\
            \x04\x00\x02\x00\x05\x00",
        handing_over_relaxed: *b"\
            \x08\x00\x01\x00\x01\x02\x00\x01\x00\x00\
            \x08\x00\x01\x00\x01\x02\x00\x01\x00\x00\
            \x08\x00\x01\x00\x01\x02\x02\x02\x00\x00\
            \x08\x00\x01\x00\x02\x01\x00\x02\x03\x00\
            \x08\x00\x01\x00\x02\x01\x00\x01\x01\x00\
            \x04\x00\x02\x00\x05\x00",
        twin: *b"\
            \x08\x00\x01\x00\x01\x02\x00\x01\x00\x00\
            \x08\x00\x01\x00\x02\x03\x00\x01\x01\x00\
            \x08\x00\x01\x00\x03\x03\x00\x01\x01\x00\
            \x04\x00\x02\x00\x03\x00",
        back: *b"\
            \x08\x00\x01\x00\x01\x02\x00\x01\x00\x00\
            \x08\x00\x01\x00\x02\x03\x00\x01\x01\x00\
            \x08\x00\x01\x00\x02\x01\x00\x01\x01\x00\
            \x04\x00\x02\x00\x03\x00",
        load_buffering: *b"\
            \x08\x00\x01\x00\x01\x01\x00\x01\x04\x00\
            \x08\x00\x01\x00\x01\x02\x00\x02\x00\x00\
            \x08\x00\x01\x00\x02\x01\x00\x02\x02\x00\
            \x08\x00\x01\x00\x02\x02\x00\x01\x00\x00\
            \x04\x00\x02\x00\x04\x00",
        update_in_between: *b"\
            \x08\x00\x01\x00\x01\x02\x00\x01\x00\x00\
            \x08\x00\x01\x00\x02\x03\x00\x01\x01\x00\
            \x08\x00\x01\x00\x03\x02\x00\x01\x00\x00\
            \x08\x00\x01\x00\x03\x01\x00\x01\x02\x00\
            \x04\x00\x02\x00\x04\x00",
        orders_that_differ: *b"\
            \x08\x00\x01\x00\x01\x01\x00\x01\x04\x00\
            \x08\x00\x01\x00\x01\x02\x00\x02\x00\x00\
            \x08\x00\x01\x00\x02\x02\x00\x02\x00\x00\
            \x08\x00\x01\x00\x03\x02\x00\x01\x00\x00\
            \x04\x00\x02\x00\x04\x00",
    }
}
