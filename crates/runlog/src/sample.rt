//! A sample run, the 2+2W test with a read on each side, and the bytes of its log.
ghost use Rattle.runlog.specs.Sample.{Spelled};

/// Two threads write the same two locations in opposite order, and each then reads, at the location that it wrote last, what
/// the other wrote there:
///
///     1  T1 W rel L1          4  T2 W rel L2
///     2  T1 W rel L2          5  T2 W rel L1
///     3  T1 R acq L2 from 4   6  T2 R acq L1 from 1
///
/// These are the bytes of its log.
pub fn two_plus_two_writes() -> [u8; 66]
    ensures { Spelled result }
{
    *b"\
        \x08\x00\x01\x00\x01\x02\x02\x01\x00\x00\
        \x08\x00\x01\x00\x01\x02\x02\x02\x00\x00\
        \x08\x00\x01\x00\x01\x01\x01\x02\x04\x00\
        \x08\x00\x01\x00\x02\x02\x02\x02\x00\x00\
        \x08\x00\x01\x00\x02\x02\x02\x01\x00\x00\
        \x08\x00\x01\x00\x02\x01\x01\x01\x01\x00\
        \x04\x00\x02\x00\x06\x00"
}
