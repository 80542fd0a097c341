// The log of each example, opened.
use crate::logs::examples;
use executions::execution::Execution;
use runlog::log::Log;
use std::test::Fail;

#[test]
fn opened(rt: HostRuntime) -> Result<(), Fail> {
    let logs = examples();
    let counts: [(&[u8], usize); 9] = [
        (&logs.no_events, 0),
        (&logs.two_writes_each_way, 6),
        (&logs.handing_over, 5),
        (&logs.handing_over_relaxed, 5),
        (&logs.twin, 3),
        (&logs.back, 3),
        (&logs.load_buffering, 4),
        (&logs.update_in_between, 4),
        (&logs.orders_that_differ, 4),
    ];
    for (bytes, count) in counts {
        let log = Log::try_from(bytes).map_err(|_| "each log opens")?;
        assert_eq!(rt; log.count(), count);
    }
    Ok(())
}
