// Logs byte by byte.
use crate::bytes::from_hex;
use executions::execution::Execution;
use runlog::log::Log;
use std::alloc::{AllocError, Global};
use std::test::Fail;

// A row is a name, the bytes in hexadecimal, and what is answered: `opens` and the number of events, or `refused`, the
// number and the place.
const ROWS: &str = "
no bytes             |                                                                    | refused 10 0
half a header        | 0400                                                               | refused 10 0
no events            | 0400 0200 0000                                                     | opens 0
end, cut short       | 0400 0200 00                                                       | refused 10 0
end, longer          | 0500 0200 0000 00                                                  | refused 10 0
end, of kind 1       | 0400 0100 0000                                                     | refused 10 0
end, of kind 3       | 0400 0300 0000                                                     | refused 10 0
end, counts 1 of 0   | 0400 0200 0100                                                     | refused 10 0
end, counts 256 of 0 | 0400 0200 0001                                                     | refused 10 0
end, big-endian      | 0004 0002 0000                                                     | refused 10 0
a byte after the end | 0400 0200 0000 00                                                  | refused 10 6
a second end         | 0400 0200 0000 0400 0200 0000                                      | refused 10 6
an event after it    | 0400 0200 0000 0800 0100 01020001 0000                             | refused 10 6
miscounted, and more | 0400 0200 0100 00                                                  | refused 10 0
a write              | 0800 0100 01020001 0000 0400 0200 0100                             | opens 1
no end               | 0800 0100 01020001 0000                                            | refused 10 10
counts 0 of 1        | 0800 0100 01020001 0000 0400 0200 0000                             | refused 10 10
counts 2 of 1        | 0800 0100 01020001 0000 0400 0200 0200                             | refused 10 10
an event, cut short  | 0800 0100 01020001 00                                              | refused 10 0
an event, longer     | 0900 0100 01020001 0000 00 0400 0200 0100                          | refused 10 0
an event, of kind 2  | 0800 0200 01020001 0000 0400 0200 0100                             | refused 10 0
an event, of kind 0  | 0800 0000 01020001 0000 0400 0200 0100                             | refused 10 0
thread 0             | 0800 0100 00020001 0000 0400 0200 0100                             | refused 11 0
thread 8             | 0800 0100 08020001 0000 0400 0200 0100                             | opens 1
thread 9             | 0800 0100 09020001 0000 0400 0200 0100                             | refused 11 0
kind 0               | 0800 0100 01000001 0000 0400 0200 0100                             | refused 11 0
kind 5               | 0800 0100 01050001 0000 0400 0200 0100                             | refused 11 0
location 0           | 0800 0100 01020000 0000 0400 0200 0100                             | refused 11 0
location 64          | 0800 0100 01020040 0000 0400 0200 0100                             | opens 1
location 65          | 0800 0100 01020041 0000 0400 0200 0100                             | refused 11 0
a fence              | 0800 0100 01040300 0000 0400 0200 0100                             | opens 1
a fence at 1         | 0800 0100 01040301 0000 0400 0200 0100                             | refused 11 0
a fence with writer  | 0800 0100 01040000 0100 0400 0200 0100                             | refused 11 0
a write with writer  | 0800 0100 01020001 0000 0800 0100 01020001 0100 0400 0200 0200     | refused 11 10
a read of nothing    | 0800 0100 01010001 0000 0400 0200 0100                             | refused 11 0
a read of itself     | 0800 0100 01010001 0100 0400 0200 0100                             | refused 11 0
an update of itself  | 0800 0100 01030001 0100 0400 0200 0100                             | refused 11 0
a read of a write    | 0800 0100 01020001 0000 0800 0100 02010001 0100 0400 0200 0200     | opens 2
a read of what comes | 0800 0100 02010001 0200 0800 0100 01020001 0000 0400 0200 0200     | opens 2
a read elsewhere     | 0800 0100 01020001 0000 0800 0100 02010002 0100 0400 0200 0200     | refused 11 10
a read above count   | 0800 0100 01020001 0000 0800 0100 02010001 0300 0400 0200 0200     | refused 11 10
a read far above     | 0800 0100 01020001 0000 0800 0100 02010001 0101 0400 0200 0200     | refused 11 10
a read of a read     | 0800 0100 01010001 0200 0800 0100 02010001 0100 0400 0200 0200     | refused 11 0
updates in a ring    | 0800 0100 01030001 0200 0800 0100 02030001 0100 0400 0200 0200     | opens 2
an update of a fence | 0800 0100 01040000 0000 0800 0100 02030001 0100 0400 0200 0200     | refused 11 10
first of two writers | 0800 0100 01010001 0000 0800 0100 02010001 0000 0400 0200 0200     | refused 11 0
a field, then shape  | 0800 0100 09020001 0000 0400 0200                                  | refused 11 0
shape, then a field  | 0800 0100 01020001 0000 0800 0300 09020001 0000 0400 0200 0200     | refused 10 10
a writer, then shape | 0800 0100 01010001 0000 0400 0200 0200                             | refused 10 10
a writer, then field | 0800 0100 01020001 0200 0800 0100 00020001 0000 0400 0200 0200     | refused 11 10
a writer, then more  | 0800 0100 01010001 0000 0400 0200 0100 00                          | refused 10 16
";

// Words as a row has them. A type with a `Display` would be no plainer for one use.
fn answer(heap: Global, bytes: &[u8]) -> Result<String, AllocError> {
    match Log::try_from(bytes) {
        Ok(log) => format!(in heap; "opens {}", log.count()),
        Err(fault) => fault.to_string(heap),
    }
}

#[test]
fn each_row(rt: HostRuntime) -> Result<(), Fail> {
    for row in ROWS.trim().lines() {
        let mut cells = row.split('|').map(|cell| cell.trim());
        let (Some(name), Some(hex), Some(expected)) = (cells.next(), cells.next(), cells.next())
        else {
            return Err(Fail::new("a row has three cells"));
        };
        let log = from_hex(rt.alloc(), hex)?;
        let said = answer(rt.alloc(), log.as_slice())?;
        assert_eq!(rt; said.as_str(), expected, "{}", name);
    }
    assert_eq!(rt; ROWS.trim().lines().count(), 51);
    Ok(())
}
